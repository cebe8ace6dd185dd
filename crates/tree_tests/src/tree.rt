use cal_base::{Blob, ClientId, Ino};
use std::alloc::Global;
use std::test::Fail;
use tree_law::{
    ApplyError, Call, Entry, Mode, Path, PlainTree, ReadPathError, Reply, Why, read_path,
};

fn path(alloc: Global, text: &str) -> Result<Path, Fail> {
    match read_path(alloc, text.as_bytes()) {
        Ok(path) => Ok(path),
        Err(_) => Err(Fail::from("no path")),
    }
}

fn blob(alloc: Global, text: &str) -> Result<Blob, Fail> {
    Ok(Blob::from_vec(text.as_bytes().to_vec(alloc)?))
}

fn new_tree(alloc: Global) -> Result<PlainTree, Fail> {
    PlainTree::new(alloc).map_err(|_| Fail::from("no memory"))
}

/// Whether the tree takes an entry.
fn take(tree: &mut PlainTree, entry: Entry) -> Result<bool, Fail> {
    match tree.apply(&entry) {
        Ok(()) => Ok(true),
        Err(ApplyError::NotLegal) => Ok(false),
        Err(ApplyError::OutOfMemory) => Err(Fail::from("no memory")),
    }
}

/// Whether the tree takes a call of a client with this reply.
fn reply(tree: &mut PlainTree, client: u8, call: Call, reply: Reply) -> Result<bool, Fail> {
    make(tree, client, call, reply, None)
}

/// Whether the tree takes a call of a client with this reply and this new inode.
fn make(
    tree: &mut PlainTree,
    client: u8,
    call: Call,
    reply: Reply,
    new_ino: Option<Ino>,
) -> Result<bool, Fail> {
    take(
        tree,
        Entry::Call {
            client: ClientId(client),
            number: 1,
            call,
            reply,
            new_ino,
        },
    )
}

fn mkdir(alloc: Global, tree: &mut PlainTree, text: &str, number: u32) -> Result<bool, Fail> {
    let call = Call::Mkdir(path(alloc, text)?);
    make(tree, 0, call, Reply::Done, Some(Ino(number)))
}

fn create(alloc: Global, tree: &mut PlainTree, text: &str, number: u32) -> Result<bool, Fail> {
    let call = Call::Create(path(alloc, text)?);
    make(tree, 0, call, Reply::Done, Some(Ino(number)))
}

fn open(alloc: Global, tree: &mut PlainTree, client: u8, text: &str, fd: u8) -> Result<bool, Fail> {
    let call = Call::Open(path(alloc, text)?, Mode::Rw);
    reply(tree, client, call, Reply::Fd(fd))
}

fn rename(
    alloc: Global,
    tree: &mut PlainTree,
    from: &str,
    to: &str,
    told: Reply,
) -> Result<bool, Fail> {
    let call = Call::Rename(path(alloc, from)?, path(alloc, to)?);
    reply(tree, 0, call, told)
}

fn write(
    alloc: Global,
    tree: &mut PlainTree,
    offset: u64,
    text: &str,
    told: Reply,
) -> Result<bool, Fail> {
    let bytes = blob(alloc, text)?;
    reply(
        tree,
        0,
        Call::Write {
            fd: 0,
            offset,
            bytes,
        },
        told,
    )
}

fn read(
    alloc: Global,
    tree: &mut PlainTree,
    client: u8,
    offset: u64,
    text: &str,
) -> Result<bool, Fail> {
    let bytes = Reply::Bytes(blob(alloc, text)?);
    reply(
        tree,
        client,
        Call::Read {
            fd: 0,
            offset,
            len: 9,
        },
        bytes,
    )
}

fn flush(tree: &mut PlainTree, client: u8, number: u32) -> Result<bool, Fail> {
    let client = ClientId(client);
    take(
        tree,
        Entry::Flush {
            client,
            ino: Ino(number),
        },
    )
}

#[test]
fn paths_are_read_exactly(rt: HostRuntime) -> Result<(), Fail> {
    let longest = "/aaaaaaaaaaaaaaaaaaaaaaaaaaa";
    let deepest = "/a/b/c/d/e/f/g/h/i/j/k/l/m/n/o/p";
    for (text, count) in [
        ("/", 0),
        ("/a", 1),
        ("/~/!", 2),
        ("/...", 1),
        (longest, 1),
        (deepest, 16),
    ] {
        let read = read_path(rt.alloc(), text.as_bytes());
        assert_eq!(rt;
            read.map(|path| path.names().len()).ok(),
            Some(count),
            "{text}"
        );
    }
    let too_long = "/aaaaaaaaaaaaaaaaaaaaaaaaaaaa";
    let too_deep = "/a/b/c/d/e/f/g/h/i/j/k/l/m/n/o/p/q";
    for text in [
        "", "a", "//", "/a/", "/a//b", "/.", "/a/..", "/a b", "/\u{7f}", too_long, too_deep,
    ] {
        let read = read_path(rt.alloc(), text.as_bytes());
        assert_eq!(rt; read.err(), Some(ReadPathError::BadPath), "{text}");
    }
    Ok(())
}

#[test]
fn rename_refuses_in_order(rt: HostRuntime) -> Result<(), Fail> {
    let alloc = rt.alloc();
    let mut tree = new_tree(alloc)?;
    assert!(rt; mkdir(alloc, &mut tree, "/d", 1)?);
    assert!(rt; mkdir(alloc, &mut tree, "/d/e", 2)?);
    assert!(rt; create(alloc, &mut tree, "/f", 3)?);
    assert!(rt; rename(alloc, &mut tree, "/d", "/d/e/x", Reply::Refused(Why::Inval))?);
    assert!(rt; rename(alloc, &mut tree, "/f", "/d", Reply::Refused(Why::IsDir))?);
    assert!(rt; rename(alloc, &mut tree, "/d", "/f", Reply::Refused(Why::NotDir))?);
    assert!(rt; rename(alloc, &mut tree, "/d/e", "/c", Reply::Done)?);
    assert!(rt; rename(alloc, &mut tree, "/c", "/d", Reply::Done)?);
    assert!(rt; rename(alloc, &mut tree, "/d", "/d", Reply::Done)?);
    assert_eq!(rt; tree.least_free(), Some(Ino(1)));
    Ok(())
}

#[test]
fn a_purge_goes_back_to_what_was_flushed(rt: HostRuntime) -> Result<(), Fail> {
    let alloc = rt.alloc();
    let mut tree = new_tree(alloc)?;
    assert!(rt; create(alloc, &mut tree, "/a", 1)?);
    assert!(rt; open(alloc, &mut tree, 0, "/a", 0)?);
    assert!(rt; write(alloc, &mut tree, 0, "old", Reply::Count(3))?);
    assert!(rt; flush(&mut tree, 0, 1)?);
    assert!(rt; write(alloc, &mut tree, 0, "new", Reply::Count(3))?);
    assert!(rt; open(alloc, &mut tree, 1, "/a", 0)?);
    assert!(rt; !read(alloc, &mut tree, 1, 0, "new")?);
    let client = ClientId(0);
    assert!(rt; take(&mut tree, Entry::Purge { client })?);
    assert!(rt; read(alloc, &mut tree, 1, 0, "old")?);
    Ok(())
}

#[test]
fn an_unlinked_file_stays_to_its_last_close(rt: HostRuntime) -> Result<(), Fail> {
    let alloc = rt.alloc();
    let mut tree = new_tree(alloc)?;
    assert!(rt; create(alloc, &mut tree, "/a", 1)?);
    assert!(rt; open(alloc, &mut tree, 0, "/a", 0)?);
    assert!(rt; write(alloc, &mut tree, 0, "k", Reply::Count(1))?);
    assert!(rt; !reply(&mut tree, 1, Call::Unlink(path(alloc, "/a")?), Reply::Done)?);
    assert!(rt; flush(&mut tree, 0, 1)?);
    assert!(rt; reply(&mut tree, 1, Call::Unlink(path(alloc, "/a")?), Reply::Done)?);
    assert!(rt; read(alloc, &mut tree, 0, 0, "k")?);
    assert_eq!(rt; tree.least_free(), Some(Ino(2)));
    assert!(rt; reply(&mut tree, 0, Call::Close(0), Reply::Done)?);
    assert_eq!(rt; tree.least_free(), Some(Ino(1)));
    Ok(())
}
