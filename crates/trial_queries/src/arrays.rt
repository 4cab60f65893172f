//! Queries over arrays whose answers are known from the language's own examples.

use crate::rows::{by_zero, gives, user_names};
use crate::together::{more, one};
use crate::tree::*;
use core_ir::{Expr, SetFunction};
use ev_value::Op;
use std::alloc::Global;
use std::test::Fail;

/// `{2, 3}`
fn two_ints(alloc: Global) -> Made<Expr> {
    set(alloc, int(2), int(3))
}

/// `[3, 1, 3]`
fn three_ints(alloc: Global) -> Made<Expr> {
    let elements = more(more(one(alloc, int(3)), int(1)), int(3))?;
    Ok(Expr::Array(0, None, elements))
}

/// `array_agg(set)`
fn array_agg(alloc: Global, set: Made<Expr>) -> Made<Expr> {
    plain(alloc, of_set(alloc, SetFunction::ArrayAgg, set))
}

/// `array_unpack(operand)`
fn unpacked(alloc: Global, operand: Made<Expr>) -> Made<Expr> {
    plain(alloc, unpack(alloc, operand))
}

#[test]
fn literals_loop_like_tuples(rt: HostRuntime) -> Result<(), Fail> {
    let alloc = rt.alloc();
    let pairs = plain(alloc, array_of_two(alloc, int(1), two_ints(alloc)));
    assert!(rt; gives(alloc, pairs, "[[1,2],[1,3]]")?);
    let nothing = plain(alloc, array_of_two(alloc, no_ints(), by_zero(alloc)));
    assert!(rt; gives(alloc, nothing, "[]")?);
    let names = plain(
        alloc,
        array_of_two(alloc, user_names(alloc), user_names(alloc)),
    );
    let twice = "[['Ann','Ann'],['Bob','Bob'],['Cid','Cid']]";
    assert!(rt; gives(alloc, names, twice)?);
    assert!(rt; gives(alloc, plain(alloc, empty_array(alloc)), "[[]]")?);
    let same = array_cast(alloc, array_of_one(alloc, int(1)));
    assert!(rt; gives(alloc, plain(alloc, same), "[[1]]")?);
    Ok(())
}

#[test]
fn arrays_are_ordered_by_their_elements(rt: HostRuntime) -> Result<(), Fail> {
    let alloc = rt.alloc();
    let longer = array_of_two(alloc, int(1), int(0));
    let less = operation(alloc, Op::Lt, array_of_one(alloc, int(1)), longer);
    assert!(rt; gives(alloc, plain(alloc, less), "[true]")?);
    Ok(())
}

#[test]
fn a_whole_set_is_one_array(rt: HostRuntime) -> Result<(), Fail> {
    let alloc = rt.alloc();
    assert!(rt; gives(alloc, array_agg(alloc, no_ints()), "[[]]")?);
    assert!(rt; gives(alloc, array_agg(alloc, two_ints(alloc)), "[[2,3]]")?);
    let names = "[['Ann','Bob','Cid']]";
    assert!(rt; gives(alloc, array_agg(alloc, user_names(alloc)), names)?);
    let faulty = set(alloc, int(1), by_zero(alloc));
    assert!(rt; gives(alloc, array_agg(alloc, faulty), "[!2]")?);
    Ok(())
}

#[test]
fn arrays_are_unpacked_in_order(rt: HostRuntime) -> Result<(), Fail> {
    let alloc = rt.alloc();
    assert!(rt; gives(alloc, unpacked(alloc, three_ints(alloc)), "[3,1,3]")?);
    let two = array_of_two(alloc, int(7), two_ints(alloc));
    assert!(rt; gives(alloc, unpacked(alloc, two), "[7,2,7,3]")?);
    assert!(rt; gives(alloc, unpacked(alloc, empty_array(alloc)), "[]")?);
    assert!(rt; gives(alloc, unpacked(alloc, no_arrays()), "[]")?);
    let faulty = array_of_two(alloc, int(1), by_zero(alloc));
    assert!(rt; gives(alloc, unpacked(alloc, faulty), "[!2]")?);
    Ok(())
}
