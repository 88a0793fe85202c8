mod laws;

use crate::disk::{DiskOut, DiskTree, uninterrupted};
use crate::run;
use sq_base::{
    File, List, Listing, MemoryOut, MemorySink, MemoryTree, Name, Out, StillOut, StillSink,
    StillTree, Tree, TreeFault,
};
use sq_plan::Status;
use sq_run::{Inputs, sqlc};
use std::alloc::{AllocError, Global};
use std::io::{ErrorKind, pipe};
use std::os::fd::AsRawFd;
use std::os::unix::fs::symlink;
use std::test::Fail;
use std::{fs, io};

const CONFIGURATION: &str =
    "{\"version\":\"2\",\"sql\":[{\"engine\":\"postgresql\",\"schema\":\"schema.sql\",\"queries\":\"q.sql\",\"gen\":{\"go\":{\"out\":\"db\"}}}]}\n";

const SCHEMA: &str = "CREATE TABLE t (id integer NOT NULL, name text);\n";

const QUERY: &str = "-- name: ListT :many\nSELECT id, name FROM t;\n";

fn file(alloc: Global, path: &str, bytes: &str) -> Result<File, AllocError> {
    Ok(File {
        path: Name::new(alloc, path)?,
        bytes: List::from_slice(alloc, bytes.as_bytes())?,
    })
}

/// The files of a project.
const PROJECT: &[(&str, &str)] = &[
    ("sqlc.json", CONFIGURATION),
    ("schema.sql", SCHEMA),
    ("q.sql", QUERY),
];

/// A project of which two statements of the schema are refused.
const TWICE_REFUSED: &[(&str, &str)] = &[
    ("sqlc.json", CONFIGURATION),
    ("schema.sql", "x; y;"),
    ("q.sql", QUERY),
];

/// Words over files, the numbers of the calls that fail of the tree, of the output and of the screen, the
/// text that is then printed, the status, and the number of files put.
type Failing = (
    &'static [&'static str],
    &'static [(&'static str, &'static str)],
    [&'static [u64]; 3],
    &'static str,
    u8,
    usize,
);

const FAILING: &[Failing] = &[
    (
        &["generate"],
        PROJECT,
        [&[0], &[], &[]],
        "sqlc.json: cannot be read\n",
        3,
        0,
    ),
    (
        &["generate"],
        PROJECT,
        [&[1], &[], &[]],
        "schema.sql: cannot be read\n",
        3,
        0,
    ),
    (
        &["generate"],
        PROJECT,
        [&[2], &[], &[]],
        "schema.sql: cannot be read\n",
        3,
        0,
    ),
    (
        &["generate"],
        PROJECT,
        [&[3], &[], &[]],
        "q.sql: cannot be read\n",
        3,
        0,
    ),
    (
        &["generate"],
        PROJECT,
        [&[4], &[], &[]],
        "q.sql: cannot be read\n",
        3,
        0,
    ),
    (
        &["generate"],
        PROJECT,
        [&[], &[0], &[]],
        "db/db.go: cannot be written\n",
        4,
        0,
    ),
    (
        &["generate"],
        PROJECT,
        [&[], &[1], &[]],
        "db/models.go: cannot be written\n",
        4,
        1,
    ),
    (
        &["generate"],
        PROJECT,
        [&[], &[2], &[]],
        "db/q.sql.go: cannot be written\n",
        4,
        2,
    ),
    (&["generate"], PROJECT, [&[0], &[], &[0]], "", 3, 0),
    (
        &["generate", "-f", "nope.json"],
        &[],
        [&[0], &[], &[]],
        "nope.json: cannot be read\n",
        3,
        0,
    ),
    (&[], &[], [&[], &[], &[0]], "", 4, 0),
    (
        &["generate"],
        TWICE_REFUSED,
        [&[], &[], &[1]],
        "schema.sql:1:1: [6] Syntax\n",
        4,
        0,
    ),
];

fn held_files(alloc: Global, held: &[(&str, &str)]) -> Result<List<File>, AllocError> {
    let mut files = List::new(alloc);
    for (path, bytes) in held {
        files.push(file(alloc, path, bytes)?)?;
    }
    Ok(files)
}

fn held_words(alloc: Global, words: &[&str]) -> Result<Vec<String>, AllocError> {
    let mut held = Vec::new(alloc);
    for word in words {
        held.push(String::from_str(alloc, word)?)?;
    }
    Ok(held)
}

/// Whether the words over these files end so.
fn ends_so(alloc: Global, row: &Failing) -> Result<bool, AllocError> {
    let (words, held, [reads, puts, writes], text, code, files) = *row;
    let words = held_words(alloc, words)?;
    let held = held_files(alloc, held)?;
    let mut tree = MemoryTree::new(alloc, held, List::from_slice(alloc, reads)?)?;
    let mut out = MemoryOut::new(alloc, List::new(alloc), List::from_slice(alloc, puts)?)?;
    let mut screen = MemorySink::new(alloc, List::from_slice(alloc, writes)?)?;
    let status = sqlc(alloc, Inputs { words }, &mut tree, &mut out, &mut screen);
    Ok(screen.text() == text.as_bytes() && status.code() == code && out.files().len() == files)
}

#[test]
fn each_failing_call_is_told(rt: HostRuntime) -> Result<(), Fail> {
    for row in FAILING {
        assert!(rt; ends_so(rt.alloc(), row)?, "at {}", row.3);
    }
    Ok(())
}

#[test]
fn where_no_call_fails_the_project_is_written(rt: HostRuntime) -> Result<(), Fail> {
    let alloc = rt.alloc();
    let words = held_words(alloc, &["generate"])?;
    let mut tree = StillTree::new(alloc, held_files(alloc, PROJECT)?)?;
    let mut out = StillOut::new(alloc, List::new(alloc))?;
    let mut screen = StillSink::new(alloc)?;
    let status = sqlc(alloc, Inputs { words }, &mut tree, &mut out, &mut screen);
    assert_eq!(rt; status, Status::Done);
    assert_eq!(rt; out.files().len(), 3);
    assert!(rt; screen.text().is_empty());
    assert_eq!(rt; tree.faults(), 0);
    assert_eq!(rt; out.faults(), 0);
    assert!(rt; matches!(tree.read(alloc, "r.sql", 3), Err(TreeFault::Missing)));
    assert_eq!(rt; tree.missings(), 1);
    Ok(())
}

#[test]
fn want_of_memory_for_the_words_is_told(rt: HostRuntime) -> Result<(), Fail> {
    let alloc = rt.alloc();
    let mut tree = StillTree::new(alloc, held_files(alloc, PROJECT)?)?;
    let mut out = StillOut::new(alloc, List::new(alloc))?;
    let mut screen = StillSink::new(alloc)?;
    let status = run(alloc, Err(AllocError), &mut tree, &mut out, &mut screen);
    assert_eq!(rt; status.code(), 5);
    assert!(rt; screen.text() == b"out of memory\n".as_slice());
    assert!(rt; out.files().is_empty());
    Ok(())
}

/// A call that a signal interrupts as often as is left.
fn interrupted(left: &mut u32) -> io::Result<u32> {
    if *left > 0 {
        *left -= 1;
        return Err(io::Error::from(ErrorKind::Interrupted));
    }
    Ok(7)
}

#[test]
fn an_interrupted_call_is_made_again(rt: HostRuntime) -> Result<(), Fail> {
    let mut left = 2;
    assert!(rt; matches!(uninterrupted(|| interrupted(&mut left)), Ok(7)));
    assert_eq!(rt; left, 0);
    let missing: io::Result<u32> = uninterrupted(|| Err(io::Error::from(ErrorKind::NotFound)));
    assert!(rt; matches!(&missing, Err(error) if error.kind() == ErrorKind::NotFound));
    Ok(())
}

#[test]
fn the_disk_keeps_what_is_put(rt: HostRuntime) -> Result<(), Fail> {
    let alloc = rt.alloc();
    let mut out = DiskOut::new(&rt);
    let mut tree = DiskTree::new(&rt);
    assert!(rt; out.put("out/kept/inner/a.txt", b"some text").is_ok());
    let bytes = tree.read(alloc, "out/kept/inner/a.txt", 3);
    assert!(rt; matches!(&bytes, Ok(bytes) if bytes.as_slice() == b"some".as_slice()));
    let inner = tree.list(alloc, "out/kept/inner");
    assert!(rt; matches!(&inner, Ok(Listing::Folder(names)) if names.len() == 1));
    assert!(rt; matches!(tree.list(alloc, "out/kept/inner/a.txt"), Ok(Listing::File)));
    assert!(rt;
        matches!(
            tree.list(alloc, "out/kept/nothing"),
            Err(TreeFault::Missing)
        )
    );
    assert!(rt;
        matches!(
            tree.list(alloc, "out/kept/inner/a.txt/b"),
            Err(TreeFault::Missing)
        )
    );
    assert!(rt;
        matches!(
            tree.read(alloc, "out/kept/inner", 3),
            Err(TreeFault::Missing)
        )
    );
    assert_eq!(rt; tree.missings(), 3);
    assert_eq!(rt; tree.faults(), 0);
    assert_eq!(rt; out.faults(), 0);
    Ok(())
}

/// Whether nothing is found at a path, listed and read.
fn is_missing<T: Tree>(alloc: Global, tree: &mut T, path: &str) -> bool {
    matches!(tree.list(alloc, path), Err(TreeFault::Missing))
        && matches!(tree.read(alloc, path, 3), Err(TreeFault::Missing))
}

#[test]
fn what_is_no_file_is_not_opened(rt: HostRuntime) -> Result<(), Fail> {
    let alloc = rt.alloc();
    let mut out = DiskOut::new(&rt);
    let mut tree = DiskTree::new(&rt);
    assert!(rt; out.put("out/linked/a.sql", b"some text").is_ok());
    if fs::symlink_metadata(&rt, "out/linked/device.sql").is_err() {
        symlink(&rt, "/dev/null", "out/linked/device.sql")?;
    }
    // A pipe whose writer is open: who reads it waits for bytes.
    let (reader, writer) = pipe(&rt)?;
    let name = format!(in alloc; "/dev/fd/{}", reader.as_raw_fd())?;
    assert!(rt; is_missing(alloc, &mut tree, "/dev/null"));
    assert!(rt; is_missing(alloc, &mut tree, "out/linked/device.sql"));
    assert!(rt; is_missing(alloc, &mut tree, name.as_str()));
    assert!(rt; out.put("/dev/null", b"some text").is_err());
    assert!(rt; out.put("out/linked/device.sql", b"some text").is_err());
    assert!(rt; out.put("out/linked", b"some text").is_err());
    assert_eq!(rt; tree.missings(), 6);
    assert_eq!(rt; tree.faults(), 0);
    assert_eq!(rt; out.faults(), 3);
    drop(writer);
    Ok(())
}

/// A project in a folder of its own.
const IN_A_FOLDER: &[(&str, &str)] = &[
    ("out/project/sqlc.json", CONFIGURATION),
    ("out/project/schema.sql", SCHEMA),
    ("out/project/q.sql", QUERY),
];

#[test]
fn the_program_writes_to_the_disk(rt: HostRuntime) -> Result<(), Fail> {
    let alloc = rt.alloc();
    let words: &[&str] = &["generate", "-f", "out/project/sqlc.json"];
    let mut out = DiskOut::new(&rt);
    for (path, text) in IN_A_FOLDER {
        assert!(rt; out.put(path, text.as_bytes()).is_ok());
    }
    let mut tree = DiskTree::new(&rt);
    let mut screen = StillSink::new(alloc)?;
    let inputs = Inputs {
        words: held_words(alloc, words)?,
    };
    let status = sqlc(alloc, inputs, &mut tree, &mut out, &mut screen);
    assert_eq!(rt; status, Status::Done);
    assert!(rt; screen.text().is_empty());
    // The files are those that a tree in memory gives.
    let mut held = StillTree::new(alloc, held_files(alloc, IN_A_FOLDER)?)?;
    let mut put = StillOut::new(alloc, List::new(alloc))?;
    let inputs = Inputs {
        words: held_words(alloc, words)?,
    };
    sqlc(alloc, inputs, &mut held, &mut put, &mut screen);
    assert_eq!(rt; put.files().len(), 3);
    for file in put.files() {
        let bytes = tree.read(alloc, file.path.as_str(), 1_000_000);
        assert!(rt; matches!(&bytes, Ok(bytes) if bytes.as_slice() == file.bytes.as_slice()));
    }
    Ok(())
}
