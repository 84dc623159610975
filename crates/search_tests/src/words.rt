// Words whose jobs are digits, and what is told of words and nodes.
use shop_model::Word;
use shop_nodes::Node;
use std::alloc::Global;
use std::fmt::Write;
use std::process::Abort;

/// Makes the word whose jobs are `digits`.
pub fn word_of(rt: &impl Abort, alloc: Global, digits: &str) -> Word {
    let mut jobs = Vec::new(alloc);
    for digit in digits.bytes() {
        let job = digit.saturating_sub(b'0') as usize;
        jobs.push(job).expect(rt, "memory");
    }
    Word::of_jobs(jobs)
}

/// Adds the digits of a word to what is told.
pub fn tell_word(rt: &impl Abort, text: &mut String, word: &Word) {
    for job in word.jobs() {
        write!(text, "{job}").expect(rt, "memory");
    }
}

/// Adds the digits and the bound of each node to what is told.
pub fn tell_nodes(rt: &impl Abort, text: &mut String, nodes: &[Node]) {
    for node in nodes {
        text.push_str(" ").expect(rt, "memory");
        tell_word(rt, text, &node.word);
        write!(text, ":{}", node.bound).expect(rt, "memory");
    }
}

/// Asserts that `told` is what is wanted of a case, and names the case if not.
pub fn assert_told(rt: &impl Abort, case: &str, told: &str, wanted: &str) {
    assert_eq!(rt; told, wanted, "{case}");
}
