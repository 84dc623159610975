// Instance texts read and refused, and the words of faults.
use shop_engine::Fault;
use shop_model::Op;
use shop_text::{Format, Named, ReadFault, read_orlib, read_routes, read_taillard};
use std::alloc::Global;
use std::fmt::Write;
use std::process::Abort;

/// Adds the release and the operations of a job to what is told.
fn tell_job(rt: &impl Abort, told: &mut String, release: u64, route: &[Op]) {
    write!(told, " | {release}").expect(rt, "memory");
    for op in route {
        write!(told, " {}:{}", op.machine, op.time).expect(rt, "memory");
    }
}

/// Adds the name, the number of machines and each job of an instance to what is told.
fn tell_named(rt: &impl Abort, told: &mut String, named: &Named) {
    let instance = &named.instance;
    write!(told, "[{} {}", named.name, instance.machines()).expect(rt, "memory");
    for j in 0..instance.jobs() {
        tell_job(rt, told, instance.release(j), instance.route(j));
    }
    told.push_str("]").expect(rt, "memory");
}

/// Tells each instance that was read, or the fault.
fn told_of(rt: &impl Abort, alloc: Global, answer: &Result<Vec<Named>, ReadFault>) -> String {
    let mut told = String::new(alloc);
    match answer {
        Err(fault) => write!(told, "{fault:?}").expect(rt, "memory"),
        Ok(all) => {
            for named in all {
                tell_named(rt, &mut told, named);
            }
        }
    }
    told
}

fn assert_told(rt: &impl Abort, told: &str, wanted: &str, bytes: usize) {
    assert_eq!(rt; told, wanted, "a text of {bytes} bytes");
}

/// Asserts what is read of a text in `format`.
pub fn assert_read(rt: &impl Abort, alloc: Global, format: Format, text: &[u8], wanted: &str) {
    let answer = match format {
        Format::Orlib => read_orlib(alloc, text),
        Format::Taillard => read_taillard(alloc, text),
        Format::Routes => read_routes(alloc, text),
    };
    let told = told_of(rt, alloc, &answer);
    assert_told(rt, told.as_str(), wanted, text.len());
}

/// Asserts what is read of each text in `format`.
fn assert_each_read(rt: &impl Abort, alloc: Global, format: Format, rows: &[(&[u8], &str)]) {
    for (text, wanted) in rows {
        assert_read(rt, alloc, format, text, wanted);
    }
}

static ORLIB: [(&[u8], &str); 32] = [
    (b"", "NoInstance"),
    (b"words alone\n\n", "NoInstance"),
    (b"2", "BadShape { line: 1 }"),
    (b"2 2 2\n", "BadShape { line: 1 }"),
    (b"201 2", "Truncated { line: 2 }"),
    (b"1001 2", "BadSize { line: 1 }"),
    (b"1 101", "BadSize { line: 1 }"),
    (b"0 2", "BadSize { line: 1 }"),
    (b"18446744073709551617 1\n", "BadSize { line: 1 }"),
    (b"2 2\n0 3 1 2\n", "Truncated { line: 3 }"),
    (b"2 2\n0 3 1 2\n\n \n", "Truncated { line: 5 }"),
    (b"2 2\n0 3 9\n1 2 0 4\n", "BadRow { line: 2 }"),
    (b"2 2\n0 3 1 -2\n1 2 0 4\n", "BadRow { line: 2 }"),
    (
        b"instance a\n2 2\n0 3 1 2\ninstance b\n1 2 0 4\n",
        "BadRow { line: 4 }",
    ),
    (b"2 2\n0 3 2 2\n1 2 0 4\n", "BadMachine { line: 2 }"),
    (b"2 2\n0 3 1 1000000001\n1 2 0 4\n", "BadTime { line: 2 }"),
    (b"2 2\n0 1000000001 5 1\n1 2 0 4\n", "BadTime { line: 2 }"),
    (b"2 2\n0 1000001 5 1\n1 2 0 4\n", "BadMachine { line: 2 }"),
    (
        b"2 2\n0 3 1 1000001\n1 2 0 4\n",
        "[1 2 | 0 0:3 1:1000001 | 0 1:2 0:4]",
    ),
    (b"2 2\n0 3 1 2\n\n1 2 0 4", "[1 2 | 0 0:3 1:2 | 0 1:2 0:4]"),
    (b"1 1\n0 18446744073709551616\n", "BadTime { line: 2 }"),
    (b"1 1\n\x0b0 7\n", "BadRow { line: 2 }"),
    (b"1 1\n0\x0c7\n", "BadRow { line: 2 }"),
    (b"1 1\n\xff\x00\n0 7\n", "BadRow { line: 2 }"),
    (b"\xff\x00\n1 1\n0 7\n", "[1 1 | 0 0:7]"),
    (b"instance \xff\n1 1\n0 7\n", "[1 1 | 0 0:7]"),
    (b"instance \x7f\n1 1\n0 7\n", "[1 1 | 0 0:7]"),
    (b"INSTANCE x\n1 1\n0 7\n", "[1 1 | 0 0:7]"),
    (b"instance a b\n1 1\n0 7\n", "[1 1 | 0 0:7]"),
    (b"2 2\n0 3 1 2\ninstance b\n1 1\n0 4\n", "[b 1 | 0 0:4]"),
    (
        b"82\ninstance a\ninstance b\n1 1\n0 7\n1 1\n0 8\n",
        "[b 1 | 0 0:7][2 1 | 0 0:8]",
    ),
    (
        b"2 2\n0 3 1 2\n1 2 0 4\ninstance 1\nsize 2 2\n",
        "NoInstance",
    ),
];

static TAILLARDS: [(&[u8], &str); 10] = [
    (b"2 2 1 2 3 4 5", "BadShape { line: 1 }"),
    (b"2", "BadShape { line: 1 }"),
    (b"2 2\nTimes\n3 2\nwords\n2 4\n", "BadRow { line: 4 }"),
    (
        b"1 2\nTimes\n3 2\nMachines\n0 1\n",
        "BadMachine { line: 5 }",
    ),
    (
        b"2 2 11 22 6 6\nTimes\n3 2\n2 4\nMachines\n1 3\n2 1\n",
        "BadMachine { line: 6 }",
    ),
    (b"1 1\n4\n", "Truncated { line: 3 }"),
    (b"1 1 99999999999999999999999\n7\n1\n", "[1 1 | 0 0:7]"),
    (
        b"1 1\n7\n1\ninstance 1\nsize 1 1\nmakespan 3\njob 0: 0\n",
        "[1 1 | 0 0:7]",
    ),
    (
        b"instance a\n1 1\n7\n1\nand\n1 1\n8\n1\n",
        "[1 1 | 0 0:7][2 1 | 0 0:8]",
    ),
    (b"1 1\n0 7\n", "BadRow { line: 2 }"),
];

static ROUTES: [(&[u8], &str); 8] = [
    (
        b"3 2\n0 0 3 1 2\n4 1 2 0 4\n7\n",
        "[1 2 | 0 0:3 1:2 | 4 1:2 0:4 | 7]",
    ),
    (b"2 1\n0\n5\n", "[1 1 | 0 | 5]"),
    (b"1 1\n1000001\n", "[1 1 | 1000001]"),
    (b"1 1\n0 0\n", "BadRow { line: 2 }"),
    (b"1 1\n1000000001\n", "BadTime { line: 2 }"),
    (b"1 1\n1000000001 1 0\n", "BadTime { line: 2 }"),
    (b"1 1\n0 1 5\n", "BadMachine { line: 2 }"),
    (b"1 1\n0 7\n", "BadRow { line: 2 }"),
];

#[test]
fn texts_of_each_format(rt: HostRuntime) {
    assert_each_read(&rt, rt.alloc(), Format::Orlib, &ORLIB);
    assert_each_read(&rt, rt.alloc(), Format::Taillard, &TAILLARDS);
    assert_each_read(&rt, rt.alloc(), Format::Routes, &ROUTES);
}

/// Asserts what is read of an instance of one operation, whose time is 9,999 times a digit and then `last`.
fn assert_long(rt: &impl Abort, alloc: Global, digit: &str, last: &str, wanted: &str) {
    let digits = digit.repeat(alloc, 9_999).expect(rt, "memory");
    let text = format!(in alloc; "1 1\n0 {digits}{last}\n").expect(rt, "memory");
    assert_read(rt, alloc, Format::Orlib, text.as_bytes(), wanted);
}

#[test]
fn long_numbers_and_a_text_too_long(rt: HostRuntime) {
    assert_long(&rt, rt.alloc(), "0", "7", "[1 1 | 0 0:7]");
    assert_long(&rt, rt.alloc(), "9", "9", "BadTime { line: 2 }");
    let blanks = vec![in rt.alloc(); b' '; 16_777_217].expect(&rt, "memory");
    assert_read(&rt, rt.alloc(), Format::Orlib, blanks.as_slice(), "TooLong");
}

/// Texts that follow some zeros in the place of the only time, and what is then read. The last two values are above
/// 2^64 by 7 and by 1,000,000,000.
static BEHIND_ZEROS: [(&str, &str); 18] = [
    ("7", "[1 1 | 0 0:7]"),
    ("7\t", "[1 1 | 0 0:7]"),
    ("7 \r", "[1 1 | 0 0:7]"),
    ("7\r", "[1 1 | 0 0:7]"),
    ("1000000000", "[1 1 | 0 0:1000000000]"),
    ("1000000001", "BadTime { line: 2 }"),
    ("0x7", "BadRow { line: 2 }"),
    ("7x", "BadRow { line: 2 }"),
    ("/", "BadRow { line: 2 }"),
    (":", "BadRow { line: 2 }"),
    ("-7", "BadRow { line: 2 }"),
    ("0 7", "BadRow { line: 2 }"),
    ("9999999999999999999", "BadTime { line: 2 }"),
    ("10000000000000000000", "BadTime { line: 2 }"),
    ("18446744073709551615", "BadTime { line: 2 }"),
    ("18446744073709551616", "BadTime { line: 2 }"),
    ("18446744073709551623", "BadTime { line: 2 }"),
    ("18446744074709551616", "BadTime { line: 2 }"),
];

#[test]
fn numbers_of_one_byte_to_fifty(rt: HostRuntime) {
    let alloc = rt.alloc();
    for count in 0..31 {
        let zeros = "0".repeat(alloc, count).expect(&rt, "memory");
        for (digits, wanted) in &BEHIND_ZEROS {
            let text = format!(in alloc; "1 1\n0 {zeros}{digits}\n").expect(&rt, "memory");
            assert_read(&rt, alloc, Format::Orlib, text.as_bytes(), wanted);
        }
        let at_the_end = format!(in alloc; "1 1\n{zeros}0 {zeros}7").expect(&rt, "memory");
        let wanted = "[1 1 | 0 0:7]";
        assert_read(&rt, alloc, Format::Orlib, at_the_end.as_bytes(), wanted);
    }
}

fn assert_said(rt: &impl Abort, alloc: Global, fault: &Fault, wanted: &str) {
    let said = format!(in alloc; "{fault}").expect(rt, "memory");
    assert_told(rt, said.as_str(), wanted, 0);
}

static FAULTS: [(Fault, &str); 13] = [
    (Fault::NoMemory, "error 1: out of memory"),
    (Fault::TooLong, "error 3: text too long"),
    (Fault::NoInstance, "error 4: no instance"),
    (
        Fault::BadShape { line: 5 },
        "error 5: line 5: bad shape of size line",
    ),
    (
        Fault::BadSize { line: 6 },
        "error 6: line 6: size out of range",
    ),
    (Fault::BadRow { line: 7 }, "error 7: line 7: bad row"),
    (
        Fault::Truncated { line: 8 },
        "error 8: line 8: text ends inside an instance",
    ),
    (
        Fault::BadMachine { line: 9 },
        "error 9: line 9: no such machine",
    ),
    (
        Fault::BadTime { line: 10 },
        "error 10: line 10: time out of range",
    ),
    (Fault::NoSuchName, "error 11: no instance of that name"),
    (
        Fault::BadTable { line: 12 },
        "error 12: line 12: bad schedule",
    ),
    (Fault::ReadFailed, "error 13: read failed"),
    (Fault::WriteFailed, "error 14: write failed"),
];

#[test]
fn words_of_faults(rt: HostRuntime) {
    for (fault, said) in &FAULTS {
        assert_said(&rt, rt.alloc(), fault, said);
    }
}

static READ_FAULTS: [ReadFault; 11] = [
    ReadFault::NoMemory,
    ReadFault::TooLong,
    ReadFault::NoInstance,
    ReadFault::BadShape { line: 5 },
    ReadFault::BadSize { line: 6 },
    ReadFault::BadRow { line: 7 },
    ReadFault::Truncated { line: 8 },
    ReadFault::BadMachine { line: 9 },
    ReadFault::BadTime { line: 10 },
    ReadFault::NoSuchName,
    ReadFault::BadTable { line: 12 },
];

#[test]
fn a_text_is_refused_in_the_words_of_the_engine(rt: HostRuntime) {
    for fault in &READ_FAULTS {
        let said = format!(in rt.alloc(); "{fault}").expect(&rt, "memory");
        assert_said(&rt, rt.alloc(), &Fault::from(*fault), said.as_str());
    }
}
