// Each call of the desk failing in turn.
use crate::tasks::trial::{Case, Files, Outcome, tried, tried_in};
use std::alloc::Global;
use std::process::Abort;
use std::test::Fail;

const FETCH_1: &str = "w/5-1-1.fetch";

const FETCH_2: &str = "w/5-1-2.fetch";

const CHUNK: &str = "w/5-1-2.chunk";

const FETCH_AGAIN: &str = "w/5-1-1-2.fetch";

const CHUNK_AGAIN: &str = "w/5-1-2-2.chunk";

// The calls of a task, in order: each one's word, the name of its file, and what files hold where it fails, a dash for no file. A call that
// fails does nothing on a desk in memory. Then what the answer is where none fails.
struct Row {
    case: Case,
    calls: &'static [(&'static str, &'static str, Files)],
    answer: &'static str,
}

static GETS: [Row; 3] = [
    Row {
        case: Case {
            line: "get WORM-s3--a o",
            layouts: &[],
            chunk: 0,
            files: &[("o", "old"), (FETCH_1, "abc")],
        },
        calls: &[
            ("size", FETCH_1, &[("o", "old"), ("o.part", "-")]),
            ("create", "o.part", &[("o", "old"), ("o.part", "-")]),
            ("read", FETCH_1, &[("o", "old"), ("o.part", "")]),
            ("append", "o.part", &[("o.part", ""), (FETCH_1, "abc")]),
            ("remove", FETCH_1, &[("o.part", "abc"), (FETCH_1, "abc")]),
            (
                "rename",
                "o.part",
                &[("o", "old"), ("o.part", "abc"), (FETCH_1, "-")],
            ),
        ],
        answer: "got",
    },
    // part is removed where the content doesn't fit
    Row {
        case: Case {
            line: "get WORM-s3--a o",
            layouts: &[],
            chunk: 0,
            files: &[("o.part", "old"), (FETCH_1, "ab")],
        },
        calls: &[
            ("size", FETCH_1, &[("o.part", "old"), (FETCH_1, "ab")]),
            ("remove", "o.part", &[("o.part", "old"), (FETCH_1, "ab")]),
        ],
        answer: "size",
    },
    Row {
        case: Case {
            line: "get MD5-s3--900150983cd24fb0d6963f7d28e17f72 o",
            layouts: &[],
            chunk: 0,
            files: &[(FETCH_1, "foo")],
        },
        calls: &[
            ("size", FETCH_1, &[("o.part", "-")]),
            ("create", "o.part", &[("o.part", "-")]),
            ("read", FETCH_1, &[("o.part", "")]),
            ("append", "o.part", &[("o.part", "")]),
            ("remove", FETCH_1, &[("o.part", "foo")]),
            ("remove", "o.part", &[("o", "-"), ("o.part", "foo")]),
        ],
        answer: "hash",
    },
];

// Gets under a name: what is left of part goes, and where the content doesn't fit, part goes too.
static EXPORTS_GOT: [Row; 2] = [
    Row {
        case: Case {
            line: "xget WORM-s3--a o\tdocs/a b.txt",
            layouts: &[(4, 1)],
            chunk: 0,
            files: &[("o", "old"), ("o.part", "rest"), (FETCH_1, "abc")],
        },
        calls: &[
            ("size", FETCH_1, &[("o", "old"), ("o.part", "rest")]),
            ("create", "o.part", &[("o", "old"), ("o.part", "rest")]),
            ("read", FETCH_1, &[("o", "old"), ("o.part", "")]),
            ("append", "o.part", &[("o.part", ""), (FETCH_1, "abc")]),
            ("remove", FETCH_1, &[("o.part", "abc"), (FETCH_1, "abc")]),
            (
                "rename",
                "o.part",
                &[("o", "old"), ("o.part", "abc"), (FETCH_1, "-")],
            ),
        ],
        answer: "got",
    },
    Row {
        case: Case {
            line: "xget WORM-s3--a o\tn",
            layouts: &[],
            chunk: 0,
            files: &[("o.part", "old"), (FETCH_1, "ab")],
        },
        calls: &[
            ("size", FETCH_1, &[("o.part", "old"), (FETCH_1, "ab")]),
            ("remove", "o.part", &[("o.part", "old"), (FETCH_1, "ab")]),
        ],
        answer: "size",
    },
];

const LEFT: Files = &[("o", "old"), ("o.part", "abcd"), (FETCH_1, "efgh")];

const HALF: Files = &[("o", "old"), ("o.part", "abcdefgh"), (FETCH_2, "ij")];

// Gets in chunks, without part and with one that is longer than a chunk.
static CHUNKS_GOT: [Row; 2] = [
    Row {
        case: Case {
            line: "get WORM-s3--a o",
            layouts: &[(4, 1)],
            chunk: 0,
            files: &[(FETCH_1, "abc")],
        },
        calls: &[
            ("size", "o.part", &[("o.part", "-")]),
            ("create", "o.part", &[("o.part", "-")]),
            ("size", FETCH_1, &[("o.part", "")]),
            ("read", FETCH_1, &[("o.part", "")]),
            ("append", "o.part", &[("o.part", "")]),
            ("remove", FETCH_1, &[("o.part", "abc"), (FETCH_1, "abc")]),
            (
                "rename",
                "o.part",
                &[("o", "-"), ("o.part", "abc"), (FETCH_1, "-")],
            ),
        ],
        answer: "got",
    },
    Row {
        case: Case {
            line: "get WORM-s10--ten o",
            layouts: &[(4, 3)],
            chunk: 0,
            files: &[
                ("o", "old"),
                ("o.part", "abcdef"),
                (FETCH_1, "efgh"),
                (FETCH_2, "ij"),
            ],
        },
        calls: &[
            ("size", "o.part", &[("o", "old"), ("o.part", "abcdef")]),
            ("cut", "o.part", &[("o", "old"), ("o.part", "abcdef")]),
            ("read", "o.part", LEFT),
            ("size", FETCH_1, LEFT),
            ("read", FETCH_1, LEFT),
            ("append", "o.part", LEFT),
            ("remove", FETCH_1, HALF),
            ("size", FETCH_2, HALF),
            ("read", FETCH_2, HALF),
            ("append", "o.part", HALF),
            ("remove", FETCH_2, &[("o", "old"), ("o.part", "abcdefghij")]),
            (
                "rename",
                "o.part",
                &[("o", "old"), ("o.part", "abcdefghij"), (FETCH_2, "-")],
            ),
        ],
        answer: "got",
    },
];

static STORES: [Row; 4] = [
    Row {
        case: Case {
            line: "xstore WORM-s2--a f\tdocs/a b.txt",
            layouts: &[],
            chunk: 4,
            files: &[("f", "hi")],
        },
        calls: &[("size", "f", &[("f", "hi")])],
        answer: "stored",
    },
    Row {
        case: Case {
            line: "xstore WORM-s3--a f\tn",
            layouts: &[],
            chunk: 0,
            files: &[("f", "hi")],
        },
        calls: &[("size", "f", &[("f", "hi")])],
        answer: "size",
    },
    Row {
        case: Case {
            line: "store WORM--a f",
            layouts: &[],
            chunk: 0,
            files: &[("f", "hi")],
        },
        calls: &[("size", "f", &[("f", "hi")])],
        answer: "stored",
    },
    Row {
        case: Case {
            line: "store WORM-s2--a f",
            layouts: &[],
            chunk: 4,
            files: &[("f", "hi")],
        },
        calls: &[
            ("size", "f", &[(CHUNK, "-")]),
            ("create", CHUNK, &[(CHUNK, "-")]),
            ("read", "f", &[(CHUNK, "")]),
            ("append", CHUNK, &[(CHUNK, "")]),
            ("remove", CHUNK, &[(CHUNK, "hi")]),
        ],
        answer: "stored",
    },
];

// Calls of their own keep what a failure prints out of the proof of the loops.
fn expect(rt: &impl Abort, holds: bool, line: &str, call: u64) {
    assert!(rt; holds, "{line}: call {call}");
}

// The task's answer, how many calls were made, and the word and the file of the last one.
fn expect_end(
    rt: &impl Abort,
    came: Outcome,
    line: &str,
    answer: &str,
    (count, word, name): (u64, &str, &str),
) {
    let holds = came.answer == answer && came.ends_with(count, word, name);
    drop(came);
    expect(rt, holds, line, count);
}

fn expect_row(rt: &impl Abort, alloc: Global, turn: u32, row: &Row) -> Result<(), Fail> {
    let line = row.case.line;
    for (at, (word, name, left)) in row.calls.iter().enumerate() {
        let number = at as u64 + 1;
        let came = tried_in(alloc, &row.case, turn, number)?;
        expect(rt, came.other(left).is_empty(), line, number);
        expect_end(rt, came, line, "filefault", (number, *word, *name));
    }
    // no more calls are made
    let came = tried_in(alloc, &row.case, turn, row.calls.len() as u64 + 1)?;
    let answer = came.answer;
    drop(came);
    expect(rt, answer == row.answer, line, 0);
    Ok(())
}

fn expect_rows(rt: &impl Abort, alloc: Global, turn: u32, rows: &[Row]) -> Result<(), Fail> {
    for row in rows {
        expect_row(rt, alloc, turn, row)?;
    }
    Ok(())
}

#[test]
fn each_call_of_a_task_fails(rt: HostRuntime) -> Result<(), Fail> {
    expect_rows(&rt, rt.alloc(), 1, &GETS)?;
    expect_rows(&rt, rt.alloc(), 1, &EXPORTS_GOT)?;
    expect_rows(&rt, rt.alloc(), 1, &CHUNKS_GOT)?;
    expect_rows(&rt, rt.alloc(), 1, &STORES)
}

#[test]
fn each_call_of_a_second_turn_fails(rt: HostRuntime) -> Result<(), Fail> {
    expect_rows(&rt, rt.alloc(), 2, &SECOND_TURNS)
}

// The files of another turn are left alone.
static SECOND_TURNS: [Row; 2] = [
    Row {
        case: Case {
            line: "get WORM-s3--a o",
            layouts: &[],
            chunk: 0,
            files: &[(FETCH_1, "old"), (FETCH_AGAIN, "abc")],
        },
        calls: &[
            ("size", FETCH_AGAIN, &[(FETCH_1, "old")]),
            ("create", "o.part", &[(FETCH_1, "old")]),
            ("read", FETCH_AGAIN, &[("o.part", "")]),
            ("append", "o.part", &[("o.part", "")]),
            ("remove", FETCH_AGAIN, &[("o.part", "abc")]),
            ("rename", "o.part", &[(FETCH_1, "old"), (FETCH_AGAIN, "-")]),
        ],
        answer: "got",
    },
    Row {
        case: Case {
            line: "store WORM-s2--a f",
            layouts: &[],
            chunk: 4,
            files: &[("f", "hi"), (CHUNK, "old")],
        },
        calls: &[
            ("size", "f", &[(CHUNK_AGAIN, "-")]),
            ("create", CHUNK_AGAIN, &[(CHUNK, "old")]),
            ("read", "f", &[(CHUNK_AGAIN, "")]),
            ("append", CHUNK_AGAIN, &[(CHUNK_AGAIN, "")]),
            (
                "remove",
                CHUNK_AGAIN,
                &[(CHUNK, "old"), (CHUNK_AGAIN, "hi")],
            ),
        ],
        answer: "stored",
    },
];

// The tasks that make no call, and their answers by an asker to which all is done and that is told that nothing is there.
static NAMED: [(&str, &str); 3] = [
    ("xcheck WORM--a docs/a b.txt", "absent"),
    ("xdrop WORM--a docs/a b.txt", "dropped"),
    ("xrename WORM--a docs/a b.txt\tn", "renamed"),
];

#[test]
fn names_are_checked_dropped_and_renamed(rt: HostRuntime) -> Result<(), Fail> {
    for (line, answer) in &NAMED {
        let case = Case {
            line: *line,
            layouts: &[],
            chunk: 0,
            files: &[],
        };
        let came = tried(rt.alloc(), &case, 1)?;
        expect_end(&rt, came, line, answer, (0, "", ""));
    }
    Ok(())
}
