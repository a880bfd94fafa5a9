//! What the lines of a checkpoint look like, which are read, and which are refused.

use std::alloc::Global;
use std::test::Fail;
use stm_event_lines::LineError;
use stm_event_lines::checkpoint::{
    DeliveredParts, WaitingLine, cell_text, checkpoint_header_text, read_cell,
    read_checkpoint_header, read_waiting, waiting_line_text,
};
use stm_events::kept_cause::KeptCause;
use stm_events::shared_verdict::SharedVerdict;
use stm_store::{Cell, Names, Table};
use stm_terms::kinds::{Base, Ty};
use stm_terms::lists::{News, Writes};
use stm_terms::values::{Fault, Ref, Value};
use stm_terms::verdicts::Verdict;
use stm_terms::{NoMemory, is_name};

const HEADER: &str = "{\"format\":4,\"next\":9,\"vars\":2,\"waiting\":0}";

const DECLARING_HEADER: &str = "{\"format\":5,\"next\":9,\"vars\":2,\"waiting\":0}";

const DECLARED: &str =
    "{\"count\":18446744073709551615,\"init\":-5,\"name\":\"x\",\"type\":\"Int\"}";

const MADE: &str = "{\"count\":0,\"init\":{\"old\":0},\"name\":null,\"type\":\"TVar Int\"}";

const NEW: &str = "{\"block\":\"readTVar x\",\"ticket\":7}";

const LABELLED: &str = "{\"block\":\"readTVar x\",\"label\":\"job7\",\"ticket\":7}";

const COMMITS: &str =
    "{\"block\":\"readTVar x\",\"reads\":[[0,5]],\"stale\":false,\"ticket\":7,\"verdict\":{\"commits\":{\"news\":[[\"TVar Int\",{\"new\":0}]],\"result\":5,\"writes\":[[0,true]]}}}";

const THROWS: &str =
    "{\"block\":\"throw 3\",\"reads\":[],\"stale\":true,\"ticket\":8,\"verdict\":{\"throws\":3}}";

const OVERFLOWS: &str =
    "{\"block\":\"throw 3\",\"reads\":[],\"stale\":false,\"ticket\":8,\"verdict\":{\"throws\":\"overflow\"}}";

const BLOCKS: &str =
    "{\"block\":\"retry\",\"label\":\"two\\\"s\",\"reads\":[[0,5],[1,{\"old\":0}]],\"stale\":true,\"ticket\":1,\"verdict\":\"blocks\"}";

const CAUSED: &str =
    "{\"block\":\"readTVar x\",\"cause\":6,\"changed\":[[0,4]],\"reads\":[[0,5]],\"stale\":true,\"ticket\":7,\"verdict\":\"blocks\"}";

const CAUSED_AND_LABELLED: &str =
    "{\"block\":\"retry\",\"cause\":4294967295,\"changed\":[[0,true],[1,{\"old\":1}]],\"label\":\"job7\",\"reads\":[[0,5],[1,{\"old\":0}]],\"stale\":true,\"ticket\":1,\"verdict\":\"blocks\"}";

/// Lines that are read, but that no checkpoint has: a cause of a new block, of one that isn't stale, and one that changed nothing.
const CAUSED_NEW: &str = "{\"block\":\"readTVar x\",\"cause\":6,\"changed\":[[0,4]],\"ticket\":7}";

const CAUSED_FRESH: &str =
    "{\"block\":\"readTVar x\",\"cause\":6,\"changed\":[[0,4]],\"reads\":[[0,5]],\"stale\":false,\"ticket\":7,\"verdict\":\"blocks\"}";

const CAUSED_BY_NOTHING: &str =
    "{\"block\":\"readTVar x\",\"cause\":0,\"changed\":[],\"label\":\"job7\",\"ticket\":7}";

#[test]
fn headers_and_variables_are_written(rt: HostRuntime) -> Result<(), Fail> {
    let int = Ty {
        base: Base::Int,
        refs: 0,
    };
    let declared = Cell {
        kind: int,
        value: Value::Int(-5),
        count: u64::MAX,
    };
    let made = Cell {
        kind: Ty {
            base: Base::Int,
            refs: 1,
        },
        value: Value::Var(Ref::Old(0)),
        count: 0,
    };
    assert_eq!(rt;
        checkpoint_header_text(rt.alloc(), 4, 9, 2, 0)?.as_str(),
        HEADER
    );
    assert_eq!(rt;
        checkpoint_header_text(rt.alloc(), 5, 9, 2, 0)?.as_str(),
        DECLARING_HEADER
    );
    assert_eq!(rt;
        cell_text(rt.alloc(), Some("x"), declared)?.as_str(),
        DECLARED
    );
    assert_eq!(rt; cell_text(rt.alloc(), None, made)?.as_str(), MADE);
    Ok(())
}

/// The line of a waiting block.
fn text_of(
    alloc: Global,
    ticket: u32,
    text: &str,
    cause: Option<&KeptCause>,
    label: &str,
    delivery: Option<DeliveredParts<'_>>,
) -> Result<String, NoMemory> {
    waiting_line_text(&WaitingLine {
        alloc,
        ticket,
        text,
        cause,
        label,
        delivery,
    })
}

/// What a delivery brought.
fn brought<'a>(
    reads: &'a [(u32, Value)],
    verdict: &'a SharedVerdict,
    stale: bool,
) -> Option<DeliveredParts<'a>> {
    Some(DeliveredParts {
        reads,
        verdict,
        stale,
    })
}

#[test]
fn waiting_blocks_are_written(rt: HostRuntime) -> Result<(), Fail> {
    let alloc = rt.alloc();
    let reference = Ty {
        base: Base::Int,
        refs: 1,
    };
    let verdict = Verdict::Commits {
        writes: Writes::from_vec(vec![in alloc; (0, Value::Bool(true))]?),
        news: News::from_vec(vec![in alloc; (reference, Value::Var(Ref::New(0)))]?),
        result: Value::Int(5),
    };
    let commits = SharedVerdict::new(alloc, verdict)?;
    let throws = SharedVerdict::new(alloc, Verdict::Throws(Fault::Thrown(3)))?;
    let overflows = SharedVerdict::new(alloc, Verdict::Throws(Fault::Overflow))?;
    let blocks = SharedVerdict::new(alloc, Verdict::Blocks)?;
    let read = [(0, Value::Int(5))];
    let two = [(0, Value::Int(5)), (1, Value::Var(Ref::Old(0)))];
    assert_eq!(rt;
        text_of(alloc, 7, "readTVar x", None, "", None)?.as_str(),
        NEW
    );
    assert_eq!(rt;
        text_of(alloc, 7, "readTVar x", None, "job7", None)?.as_str(),
        LABELLED
    );
    assert_eq!(rt;
        text_of(
            alloc,
            7,
            "readTVar x",
            None,
            "",
            brought(&read, &commits, false)
        )?
        .as_str(),
        COMMITS
    );
    assert_eq!(rt;
        text_of(alloc, 8, "throw 3", None, "", brought(&[], &throws, true))?.as_str(),
        THROWS
    );
    assert_eq!(rt;
        text_of(
            alloc,
            8,
            "throw 3",
            None,
            "",
            brought(&[], &overflows, false)
        )?
        .as_str(),
        OVERFLOWS
    );
    assert_eq!(rt;
        text_of(
            alloc,
            1,
            "retry",
            None,
            "two\"s",
            brought(&two, &blocks, true)
        )?
        .as_str(),
        BLOCKS
    );
    Ok(())
}

#[test]
fn causes_are_written(rt: HostRuntime) -> Result<(), Fail> {
    let alloc = rt.alloc();
    let blocks = SharedVerdict::new(alloc, Verdict::Blocks)?;
    let read = [(0, Value::Int(5))];
    let two = [(0, Value::Int(5)), (1, Value::Var(Ref::Old(0)))];
    let one = KeptCause {
        finish: 6,
        left: Writes::from_vec(vec![in alloc; (0, Value::Int(4))]?),
    };
    let last = KeptCause {
        finish: u32::MAX,
        left: Writes::from_vec(vec![in alloc;
            (0, Value::Bool(true)),
            (1, Value::Var(Ref::Old(1))),
        ]?),
    };
    let none = KeptCause {
        finish: 0,
        left: Writes::from_vec(Vec::new(alloc)),
    };
    assert_eq!(rt;
        text_of(
            alloc,
            7,
            "readTVar x",
            Some(&one),
            "",
            brought(&read, &blocks, true)
        )?
        .as_str(),
        CAUSED
    );
    assert_eq!(rt;
        text_of(
            alloc,
            1,
            "retry",
            Some(&last),
            "job7",
            brought(&two, &blocks, true)
        )?
        .as_str(),
        CAUSED_AND_LABELLED
    );
    assert_eq!(rt;
        text_of(alloc, 7, "readTVar x", Some(&one), "", None)?.as_str(),
        CAUSED_NEW
    );
    assert_eq!(rt;
        text_of(
            alloc,
            7,
            "readTVar x",
            Some(&one),
            "",
            brought(&read, &blocks, false)
        )?
        .as_str(),
        CAUSED_FRESH
    );
    assert_eq!(rt;
        text_of(alloc, 7, "readTVar x", Some(&none), "job7", None)?.as_str(),
        CAUSED_BY_NOTHING
    );
    Ok(())
}

/// Whether the line is read as a first line.
fn is_header(alloc: Global, line: &str) -> Result<bool, LineError> {
    match read_checkpoint_header(alloc, line.as_bytes()) {
        Ok(_header) => Ok(true),
        Err(LineError::Bad) => Ok(false),
        Err(LineError::NoMemory) => Err(LineError::NoMemory),
    }
}

/// Whether the line is read as a variable.
fn is_cell(alloc: Global, line: &str) -> Result<bool, LineError> {
    match read_cell(alloc, line.as_bytes()) {
        Ok(_cell) => Ok(true),
        Err(LineError::Bad) => Ok(false),
        Err(LineError::NoMemory) => Err(LineError::NoMemory),
    }
}

/// Whether the line is read as a waiting block over the names.
fn is_waiting(alloc: Global, known: &Names, line: &str) -> Result<bool, LineError> {
    match read_waiting(alloc, known, line.as_bytes()) {
        Ok(_waiting) => Ok(true),
        Err(LineError::Bad) => Ok(false),
        Err(LineError::NoMemory) => Err(LineError::NoMemory),
    }
}

/// The names of a table of one variable `x`.
fn one_variable(alloc: Global) -> Result<Names, Fail> {
    let mut table = Table::empty(alloc);
    let int = Ty {
        base: Base::Int,
        refs: 0,
    };
    if is_name("x") {
        table.declare("x", int, Value::Int(0))?;
    }
    Ok(Names::of_table(alloc, &table)?)
}

#[test]
fn own_lines_are_read(rt: HostRuntime) -> Result<(), Fail> {
    let alloc = rt.alloc();
    let known = one_variable(alloc)?;
    for line in [HEADER, DECLARING_HEADER] {
        assert!(rt; is_header(alloc, line)?, "{line}");
    }
    for line in [DECLARED, MADE] {
        assert!(rt; is_cell(alloc, line)?, "{line}");
    }
    for line in [NEW, LABELLED, COMMITS, THROWS, OVERFLOWS, BLOCKS] {
        assert!(rt; is_waiting(alloc, &known, line)?, "{line}");
    }
    for line in [
        CAUSED,
        CAUSED_AND_LABELLED,
        CAUSED_NEW,
        CAUSED_FRESH,
        CAUSED_BY_NOTHING,
    ] {
        assert!(rt; is_waiting(alloc, &known, line)?, "{line}");
    }
    Ok(())
}

/// No first lines: another format, an old one, another order, a blank, a leading zero, a number of 33 bits.
const NO_HEADERS: [&str; 9] = [
    "",
    "{\"format\":6,\"next\":9,\"vars\":2,\"waiting\":0}",
    "{\"format\":5,\"vars\":2}",
    "{\"format\":3,\"next\":9,\"vars\":2,\"waiting\":0}",
    "{\"format\":3,\"vars\":2}",
    "{\"next\":9,\"format\":4,\"vars\":2,\"waiting\":0}",
    "{\"format\":4, \"next\":9,\"vars\":2,\"waiting\":0}",
    "{\"format\":4,\"next\":09,\"vars\":2,\"waiting\":0}",
    "{\"format\":4,\"next\":9,\"vars\":4294967296,\"waiting\":0}",
];

/// No variables: another order, a blank, a leading zero, a count of 65 bits, a keyword as a name, no name, a fault in the type.
const NO_CELLS: [&str; 8] = [
    "{\"init\":1,\"count\":0,\"name\":\"x\",\"type\":\"Int\"}",
    "{\"count\":0,\"init\":1,\"name\":\"x\",\"type\":\"Int\"} ",
    "{\"count\":00,\"init\":1,\"name\":\"x\",\"type\":\"Int\"}",
    "{\"count\":18446744073709551616,\"init\":1,\"name\":\"x\",\"type\":\"Int\"}",
    "{\"count\":-1,\"init\":1,\"name\":\"x\",\"type\":\"Int\"}",
    "{\"count\":0,\"init\":1,\"name\":\"let\",\"type\":\"Int\"}",
    "{\"count\":0,\"init\":1,\"type\":\"Int\"}",
    "{\"count\":0,\"init\":1,\"name\":null,\"type\":\"TVar\"}",
];

/// No waiting blocks: another order, a blank, a leading zero, a read of three items, no verdict beside reads, a fault in the block,
/// a variable that isn't among the names, a second verdict, a truth value that is a number, labels that are none, a cause
/// without what it changed, what changed without a cause, a cause after the label, one that is a list, a change of one item.
const NO_WAITING: [&str; 17] = [
    "{\"ticket\":7,\"block\":\"readTVar x\"}",
    "{\"block\":\"readTVar x\",\"ticket\": 7}",
    "{\"block\":\"readTVar x\",\"ticket\":07}",
    "{\"block\":\"retry\",\"reads\":[[0,5,6]],\"stale\":true,\"ticket\":1,\"verdict\":\"blocks\"}",
    "{\"block\":\"retry\",\"reads\":[],\"stale\":true,\"ticket\":1}",
    "{\"block\":\"readTVar\",\"ticket\":7}",
    "{\"block\":\"readTVar y\",\"ticket\":7}",
    "{\"block\":\"retry\",\"reads\":[],\"stale\":true,\"ticket\":1,\"verdict\":\"blocks\",\"verdict\":\"blocks\"}",
    "{\"block\":\"retry\",\"reads\":[],\"stale\":1,\"ticket\":1,\"verdict\":\"blocks\"}",
    "{\"block\":\"readTVar x\",\"label\":\"\",\"ticket\":7}",
    "{\"block\":\"readTVar x\",\"label\":\"-\",\"ticket\":7}",
    "{\"block\":\"readTVar x\",\"label\":\"a b\",\"ticket\":7}",
    "{\"block\":\"readTVar x\",\"cause\":6,\"ticket\":7}",
    "{\"block\":\"readTVar x\",\"changed\":[[0,4]],\"ticket\":7}",
    "{\"block\":\"readTVar x\",\"label\":\"job7\",\"cause\":6,\"changed\":[[0,4]],\"ticket\":7}",
    "{\"block\":\"readTVar x\",\"cause\":[6],\"changed\":[[0,4]],\"ticket\":7}",
    "{\"block\":\"readTVar x\",\"cause\":6,\"changed\":[[0]],\"ticket\":7}",
];

#[test]
fn other_lines_are_refused(rt: HostRuntime) -> Result<(), Fail> {
    let alloc = rt.alloc();
    let known = one_variable(alloc)?;
    for line in NO_HEADERS {
        assert!(rt; !is_header(alloc, line)?, "{line}");
    }
    for line in NO_CELLS {
        assert!(rt; !is_cell(alloc, line)?, "{line}");
    }
    for line in NO_WAITING {
        assert!(rt; !is_waiting(alloc, &known, line)?, "{line}");
    }
    Ok(())
}
