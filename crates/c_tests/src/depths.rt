//! Words whose depths were worked by hand.

use c_depth::first_deep;
use c_grammar::{CSign, CWordToken};
use num_type::Container;
use std::alloc::{AllocError, Global};
use std::test::Fail;

/// So many parentheses that open.
fn parentheses(alloc: Global, count: u32) -> Result<Vec<CWordToken>, AllocError> {
    let mut words = Vec::new(alloc);
    for _ in 0..count {
        words.push(CWordToken::Sign(CSign::Open))?;
    }
    Ok(words)
}

/// So many casts, whose operand comes next.
fn casts(alloc: Global, count: u32) -> Result<Vec<CWordToken>, AllocError> {
    let mut words = Vec::new(alloc);
    for _ in 0..count {
        words.push(CWordToken::Sign(CSign::Open))?;
        words.push(CWordToken::Type(Container::I64))?;
        words.push(CWordToken::Sign(CSign::Close))?;
    }
    Ok(words)
}

#[test]
fn open_brackets(rt: HostRuntime) -> Result<(), Fail> {
    let alloc = rt.alloc();
    let mut words = parentheses(alloc, 500)?;
    assert_eq!(rt; first_deep(alloc, &words)?, None);
    words.push(CWordToken::Sign(CSign::OpenSquare))?;
    assert_eq!(rt; first_deep(alloc, &words)?, Some(500));
    Ok(())
}

#[test]
fn open_casts(rt: HostRuntime) -> Result<(), Fail> {
    let alloc = rt.alloc();
    // the parenthesis of the last cast is 500 deep, and the next one deeper
    let mut words = casts(alloc, 500)?;
    assert_eq!(rt; first_deep(alloc, &words)?, None);
    words.push(CWordToken::Sign(CSign::Open))?;
    assert_eq!(rt; first_deep(alloc, &words)?, Some(1500));
    // a variable ends all casts before it
    let mut words = casts(alloc, 500)?;
    words.push(CWordToken::Var(0))?;
    words.push(CWordToken::Sign(CSign::Open))?;
    assert_eq!(rt; first_deep(alloc, &words)?, None);
    Ok(())
}
