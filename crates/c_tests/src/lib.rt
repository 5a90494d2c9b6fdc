//! Worked C: what is written, read back and counted, and the lines of cases and results.
#![tactic(auto)]

#[cfg(test)]
mod c_tokens;
#[cfg(test)]
mod cases;
#[cfg(test)]
mod depths;
#[cfg(test)]
mod read_back;
#[cfg(test)]
mod result_lines;
#[cfg(test)]
mod words;
#[cfg(test)]
mod written;
