use script::{BadLine, BadWhy, ReadLineError, ReadScriptError, read_call, read_line, read_script};
use std::alloc::Global;
use std::test::Fail;
use tree_law::Call;

/// Why a line is bad by the whole grammar, if it is.
fn reason(alloc: Global, number: u32, line: &str) -> Result<Option<BadWhy>, Fail> {
    match read_line(alloc, number, 100, line.as_bytes()) {
        Ok(_) => Ok(None),
        Err(ReadLineError::Bad(why)) => Ok(Some(why)),
        Err(ReadLineError::OutOfMemory) => Err("no memory")?,
    }
}

/// The first bad line of a script.
fn first_bad(alloc: Global, script: &str) -> Result<Option<(u32, BadWhy)>, Fail> {
    match read_script(alloc, script.as_bytes()) {
        Ok(_) => Ok(None),
        Err(ReadScriptError::BadLine(BadLine { line, why })) => Ok(Some((line, why))),
        Err(ReadScriptError::OutOfMemory) => Err("no memory")?,
    }
}

#[test]
fn calls_have_good_and_bad_lines(rt: HostRuntime) -> Result<(), Fail> {
    let alloc = rt.alloc();
    let lines = [
        ("c0 create /a", None),
        ("c15 mkdir /a/b", None),
        ("c1 stat /a", None),
        ("c1 rename /a /b", None),
        ("c1 open /a rw", None),
        ("c1 close 255", None),
        ("c1 read 0 18446744073709551615 262144", None),
        ("c1 write 0 0 00ff", None),
        ("c1 fill 0 0 32768 7a", None),
        (" c1  stat   /a ", None),
        ("c16 stat /a", Some(BadWhy::Word)),
        ("c01 stat /a", Some(BadWhy::Word)),
        ("c1 look /a", Some(BadWhy::Word)),
        ("c1 mkdir /a /b", Some(BadWhy::Count)),
        ("c1 rename /a ..", Some(BadWhy::Path)),
        ("c1 open a wr more", Some(BadWhy::Word)),
        ("c1 close 256", Some(BadWhy::Number)),
        ("c1 fsync 00", Some(BadWhy::Number)),
    ];
    for (line, why) in lines {
        assert_eq!(rt; reason(alloc, 3, line)?, why, "{line}");
    }
    Ok(())
}

#[test]
fn commands_have_good_and_bad_lines(rt: HostRuntime) -> Result<(), Fail> {
    let alloc = rt.alloc();
    let lines = [
        ("deliver 7", None),
        ("drop 0", None),
        ("pass c0 A", None),
        ("pass c0 C 1", Some(BadWhy::Word)),
        ("cut A B", None),
        ("mend B c15", None),
        ("tick A", None),
        ("crash c3", None),
        ("gone A", Some(BadWhy::Word)),
        ("view B", None),
        ("writeback c0 3", None),
        ("writeback c0 300", Some(BadWhy::Number)),
        ("settle", None),
        ("window 4", Some(BadWhy::Word)),
        ("\tsettle", Some(BadWhy::Byte)),
    ];
    for (line, why) in lines {
        assert_eq!(rt; reason(alloc, 3, line)?, why, "{line}");
    }
    Ok(())
}

#[test]
fn stops_and_windows_have_good_and_bad_lines(rt: HostRuntime) -> Result<(), Fail> {
    let alloc = rt.alloc();
    let lines = [
        ("stop A 0 clean", None),
        ("stop B 4294967295 fill ff", None),
        ("stop A 1 hex 0102", None),
        ("stop A x clean 1", Some(BadWhy::Count)),
        ("stop A 4294967296 hex zz", Some(BadWhy::Number)),
        ("stop A 1 hex 012", Some(BadWhy::Hex)),
        ("window 8", None),
        ("window 9", Some(BadWhy::Number)),
    ];
    for (line, why) in lines {
        assert_eq!(rt; reason(alloc, 2, line)?, why, "{line}");
    }
    Ok(())
}

#[test]
fn a_call_is_read_without_its_client(rt: HostRuntime) -> Result<(), Fail> {
    let alloc = rt.alloc();
    let read = Call::Read {
        fd: 31,
        offset: 0,
        len: 9,
    };
    assert_eq!(rt; read_call(alloc, b"read 31 0 9"), Ok(read));
    Ok(())
}

#[test]
fn the_first_bad_line_is_told_with_its_first_reason(rt: HostRuntime) -> Result<(), Fail> {
    let alloc = rt.alloc();
    let scripts = [
        ("", Some((1, BadWhy::First))),
        ("\nclients 1\n", Some((1, BadWhy::First))),
        ("clients 17\n", Some((1, BadWhy::First))),
        ("clients 16\n", None),
        (
            " clients  1 \n\n   \n# c0 stat\n c0  create /a \nc0 stat /",
            None,
        ),
        (
            "clients 1\nc0 stat /a\nc0 read 0 0\n",
            Some((3, BadWhy::Count)),
        ),
        ("clients 1\nc0 read 0 0 1\n", None),
        ("clients 1\nwindow 4\n", None),
        ("clients 1\n\nwindow 4\n", Some((3, BadWhy::Word))),
        ("clients 1\n#\u{0}\nc0 open\n", Some((2, BadWhy::Byte))),
    ];
    for (text, bad) in scripts {
        assert_eq!(rt; first_bad(alloc, text)?, bad, "{text}");
    }
    Ok(())
}
