// Texts cut to their first n bytes, for each n; the answers are derived from the formats' description.
use crate::readers::assert_read;
use crate::runs::{CROSSING, TAILLARD, TWO_EXAMPLES};
use shop_text::Format;

#[test]
fn orlib_cut_at_each_byte(rt: HostRuntime) {
    let text = CROSSING.as_bytes();
    assert_eq!(rt; text.len(), 20);
    for n in 0..=20 {
        let wanted = match n {
            0 => "NoInstance",
            1..=2 => "BadShape { line: 1 }",
            3..=4 => "Truncated { line: 2 }",
            5..=10 => "BadRow { line: 2 }",
            11..=12 => "Truncated { line: 3 }",
            13..=18 => "BadRow { line: 3 }",
            _ => "[1 2 | 0 0:3 1:2 | 0 1:2 0:4]",
        };
        assert_read(&rt, rt.alloc(), Format::Orlib, &text[..n], wanted);
    }
}

/// The first header is complete with byte 42 of the text, the first byte of the name: a shorter text has no header, so
/// line 2 is read as a size line. Each line of numbers begins with a space; a text cut after that space ends in a blank
/// line.
#[test]
fn named_instances_cut_at_each_byte(rt: HostRuntime) {
    let text = TWO_EXAMPLES.as_bytes();
    assert_eq!(rt; text.len(), 174);
    for n in 0..=174 {
        let wanted = match n {
            0..=20 => "NoInstance",
            21..=41 => "BadShape { line: 2 }",
            42..=70 => "NoInstance",
            71..=72 => "BadShape { line: 7 }",
            73..=75 => "Truncated { line: 8 }",
            76 => "Truncated { line: 9 }",
            77..=82 => "BadRow { line: 8 }",
            83..=85 => "Truncated { line: 9 }",
            86 => "Truncated { line: 10 }",
            87..=92 => "BadRow { line: 9 }",
            93..=141 => "[alpha 2 | 0 0:3 1:2 | 0 1:2 0:4]",
            142..=143 => "BadShape { line: 14 }",
            144..=146 => "Truncated { line: 15 }",
            147 => "Truncated { line: 16 }",
            148..=157 => "BadRow { line: 15 }",
            158..=160 => "Truncated { line: 16 }",
            161 => "Truncated { line: 17 }",
            162..=171 => "BadRow { line: 16 }",
            _ => "[alpha 2 | 0 0:3 1:2 | 0 1:2 0:4][gap 3 | 0 0:5 1:3 2:0 | 0 1:1 0:1 2:6]",
        };
        assert_read(&rt, rt.alloc(), Format::Orlib, &text[..n], wanted);
    }
}

#[test]
fn taillard_cut_at_each_byte(rt: HostRuntime) {
    let text = TAILLARD.as_bytes();
    assert_eq!(rt; text.len(), 64);
    for n in 0..=64 {
        let wanted = match n {
            0..=19 => "NoInstance",
            20..=21 => "BadShape { line: 2 }",
            22..=33 => "Truncated { line: 3 }",
            34..=39 => "Truncated { line: 4 }",
            40..=41 => "BadRow { line: 4 }",
            42..=43 => "Truncated { line: 5 }",
            44..=45 => "BadRow { line: 5 }",
            46..=47 => "Truncated { line: 6 }",
            48..=56 => "Truncated { line: 7 }",
            57..=58 => "BadRow { line: 7 }",
            59..=60 => "Truncated { line: 8 }",
            61..=62 => "BadRow { line: 8 }",
            _ => "[1 2 | 0 0:3 1:2 | 0 1:2 0:4]",
        };
        assert_read(&rt, rt.alloc(), Format::Taillard, &text[..n], wanted);
    }
}
