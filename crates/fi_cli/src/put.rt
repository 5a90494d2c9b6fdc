//! Writing to sinks.

ghost use Rattle.std.specs.Prelude.{◌≡◌, OnOk, OnErr};
ghost use Rattle.fic_io.specs.Causes.{appended};
ghost use Rattle.fi_cli.specs.Gains.{GainsPart};

use fic_io::{Failed, Sink};

/// Puts all the bytes, unless the sink fails.
pub fn put_all<O: Sink>(out: &mut O, bytes: &[u8]) -> Result<(), Failed>
    ensures taken { OnOk result (O.taken out.new ≡ appended (O.taken out.old) bytes.now) }
    ensures faults { OnOk result (O.faults out.new ≡ O.faults out.old) }
    ensures failed { OnErr result (GainsPart (O.faults out.old) (O.faults out.new) (O.taken out.old) (O.taken out.new) bytes.now) }
{
    let mut done = 0;
    while done < bytes.len() {
        match out.put(bytes.split_at(done).1) {
            Ok(count) => done += count,
            Err(fault) => return Err(fault),
        }
    }
    Ok(())
}
