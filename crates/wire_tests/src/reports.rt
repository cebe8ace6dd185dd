use cal_base::{Ino, Oom};
use report::pieces;
use std::alloc::Global;
use std::test::Fail;
use token_kind::{Class, Hold, Reported, Token};

/// How many pieces a report of so many holds has, and how many holds the last.
fn shape(alloc: Global, count: u16) -> Result<(usize, usize), Oom> {
    let hold = Reported {
        token: Token {
            ino: Ino(7),
            class: Class::Data,
            hold: Hold::Read,
        },
        flush: 0,
        leave: Hold::None,
    };
    let held = vec![in alloc; hold; count as usize]?;
    let report = pieces(alloc, &held)?;
    match report.as_slice().last() {
        Some(last) if last.last => Ok((report.len(), last.holds.len())),
        _ => Ok((0, 0)),
    }
}

#[test]
fn pieces_have_32_holds_but_the_last(rt: HostRuntime) -> Result<(), Fail> {
    let alloc = rt.alloc();
    for (count, shown) in [(0, (1, 0)), (32, (1, 32)), (33, (2, 1)), (1000, (32, 8))] {
        assert_eq!(rt; shape(alloc, count)?, shown, "{count}");
    }
    Ok(())
}
