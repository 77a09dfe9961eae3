//! Tests that show what patterns answer by tables, and that the first match is found.

use onig_match::{Work, attempt};
use onig_parse::read_pattern;
use onig_scan::{Flags, Found, Outcome, Scanner};
use pattern_tree::Pattern;
use std::alloc::{AllocError, Global};
use std::rc::Rc;
use std::test::Fail;

const FLAGS: Flags = Flags {
    first: true,
    anchor: None,
};

/// What the groups took in the last hit, the whole match first.
fn captures(alloc: Global, work: &Work) -> Result<String, AllocError> {
    let mut all = String::new(alloc);
    for n in 0..=work.groups() {
        if n > 0 {
            all.push(' ')?;
        }
        let shown = match work.capture(n) {
            Some(place) => {
                let (from, to) = (place.from, place.to);
                format!(in alloc; "{from}-{to}")?
            }
            None => format!(in alloc; ".")?,
        };
        all.push_str(shown.as_str())?;
    }
    Ok(all)
}

/// What an attempt of a pattern that was read answers, and its captures.
fn attempted(
    alloc: Global,
    pattern: &Pattern,
    text: &[char],
    at: u32,
    budget: u32,
    flags: Flags,
) -> Result<String, AllocError> {
    if text.len() > 1000 || at as usize > text.len() {
        return format!(in alloc; "out of range");
    }
    let mut work = Work::new(alloc, budget, pattern.groups())?;
    match attempt(pattern, &mut work, text, at, flags) {
        Outcome::Hit => captures(alloc, &work),
        Outcome::Miss => format!(in alloc; "miss"),
        Outcome::Spent => format!(in alloc; "spent"),
    }
}

/// What an attempt of a pattern text answers, or why the text is refused.
fn answer(
    alloc: Global,
    pattern: &str,
    text: &str,
    at: u32,
    budget: u32,
    flags: Flags,
) -> Result<String, AllocError> {
    let text: Vec<char> = text.chars().collect(alloc)?;
    match read_pattern(alloc, pattern) {
        Ok(pattern) => attempted(alloc, &pattern, text.as_slice(), at, budget, flags),
        Err(refusal) => format!(in alloc; "{refusal:?}"),
    }
}

/// What a row says of a search: whether `\A` holds at 0, and a digit where `\G` holds.
fn flags_of(text: &str) -> Flags {
    Flags {
        first: text.contains('A'),
        anchor: text.chars().find_map(|c| c.to_digit(10)),
    }
}

/// Each row is a pattern, a text, a place, a budget, flags and the answer, with broken bars between them and a
/// pilcrow behind the row.
fn fields(alloc: Global, row: &str) -> Result<Vec<&str>, AllocError> {
    row.split('\u{a6}').collect(alloc)
}

/// What is wrong with the rows of a table, of which there are so many.
pub(crate) fn faults(alloc: Global, table: &str, count: usize) -> Result<String, AllocError> {
    let mut all = String::new(alloc);
    let mut rows = 0u64;
    for row in table.split_terminator('\u{b6}') {
        rows = rows.saturating_add(1);
        let fields = fields(alloc, row)?;
        if let [pattern, text, at, budget, flags, expected] = fields.as_slice() {
            let (Ok(at), Ok(budget)) = (at.parse::<u32>(), budget.parse::<u32>()) else {
                all.push_str(row)?;
                continue;
            };
            let found = answer(alloc, pattern, text, at, budget, flags_of(flags))?;
            if found.as_str() != *expected {
                let fault = format!(in alloc; "{pattern} gives {found}, not {expected}; ")?;
                all.push_str(fault.as_str())?;
            }
        } else {
            all.push_str(row)?;
        }
    }
    if rows != count as u64 {
        all.push_str("rows are missing")?;
    }
    Ok(all)
}

// The answers to patterns and texts are those of Onigmo, the form of Oniguruma in Ruby 3.1. Those that are this
// project's own (budgets, flags, and sets beyond ASCII) stand last.
const PLAIN: &str = "\
    \\t¦\t¦0¦1000¦A-¦0-1¶\
    \\n¦\n¦0¦1000¦A-¦0-1¶\
    \\v¦\u{b}¦0¦1000¦A-¦0-1¶\
    \\f¦\u{c}¦0¦1000¦A-¦0-1¶\
    \\r¦\r¦0¦1000¦A-¦0-1¶\
    \\a¦\u{7}¦0¦1000¦A-¦0-1¶\
    \\e¦\u{1b}¦0¦1000¦A-¦0-1¶\
    \\x41\\x4¦A\u{4}¦0¦1000¦A-¦0-2¶\
    \\x{1F600}¦\u{1f600}¦0¦1000¦A-¦0-1¶\
    \\u00e9¦\u{e9}¦0¦1000¦A-¦0-1¶\
    \\.\\\\\\-¦.\\-¦0¦1000¦A-¦0-3¶\
    \\d+¦42x¦0¦1000¦A-¦0-2¶\
    \\D+¦ab1¦0¦1000¦A-¦0-2¶\
    \\w+¦a_1-¦0¦1000¦A-¦0-3¶\
    \\W¦a¦0¦1000¦A-¦miss¶\
    \\s\\S¦ x¦0¦1000¦A-¦0-2¶\
    \\h+\\H¦1Fg¦0¦1000¦A-¦0-3¶\
    \\p{Lu}\\p{^Lu}\\P{Lu}¦\u{c9}\u{e9}1¦0¦1000¦A-¦0-3¶\
    \\p{letter}\\p{N}\\p{Sc}¦\u{e9}5\u{20ac}¦0¦1000¦A-¦0-3¶\
    \\p{P U_n-ct}¦!¦0¦1000¦A-¦0-1¶\
    [[:digit:]]+¦5x¦0¦1000¦A-¦0-1¶\
    [[:word:]]+¦\u{e9}_5 ¦0¦1000¦A-¦0-3¶\
    [[:space:]]+¦ \t\u{2003}x¦0¦1000¦A-¦0-3¶\
    [[:xdigit:]]+¦aFg¦0¦1000¦A-¦0-2¶\
    [[:alpha:]]+¦\u{e9}\u{3a9}1¦0¦1000¦A-¦0-2¶\
    [[:alnum:]]+¦a5-¦0¦1000¦A-¦0-2¶\
    [[:upper:]][[:lower:]]¦\u{c9}\u{e9}¦0¦1000¦A-¦0-2¶\
    [[:blank:]]+¦ \t\n¦0¦1000¦A-¦0-2¶\
    [[:cntrl:]]¦\u{7}¦0¦1000¦A-¦0-1¶\
    [[:punct:]]+¦!$+x¦0¦1000¦A-¦0-3¶\
    [[:graph:]]+¦a\u{20ac} ¦0¦1000¦A-¦0-2¶\
    [[:print:]]+¦a \u{20ac}\n¦0¦1000¦A-¦0-3¶\
    [[:ascii:]]+¦a~\u{e9}¦0¦1000¦A-¦0-2¶\
    [[:^digit:]]+¦ab1¦0¦1000¦A-¦0-2¶\
    (?i)aB¦Ab¦0¦1000¦A-¦0-2¶\
    (?i:a)b¦AB¦0¦1000¦A-¦miss¶\
    (?i:a)b¦Ab¦0¦1000¦A-¦0-2¶\
    (?m).¦\n¦0¦1000¦A-¦0-1¶\
    .¦\n¦0¦1000¦A-¦miss¶\
    (?x) a b # c¦ab¦0¦1000¦A-¦0-2¶\
    (?x:a\\ [ ])¦a  ¦0¦1000¦A-¦0-3¶\
    (?i-m:A.)¦ab¦0¦1000¦A-¦0-2¶\
    a(?i)b|c¦aC¦0¦1000¦A-¦0-2¶\
    a(?i)b|c¦C¦0¦1000¦A-¦miss¶\
    (?:(?i)a)b¦AB¦0¦1000¦A-¦miss¶\
    ((?i)a)b¦Ab¦0¦1000¦A-¦0-2 0-1¶\
    [abc]+¦cabd¦0¦1000¦A-¦0-3¶\
    [^abc]¦a¦0¦1000¦A-¦miss¶\
    [a-c]+¦abcd¦0¦1000¦A-¦0-3¶\
    [a-c-e]+¦b-ed¦0¦1000¦A-¦0-3¶\
    []a]+¦]a[¦0¦1000¦A-¦0-2¶\
    [^]a]¦]¦0¦1000¦A-¦miss¶\
    [a-]+[-b]¦a-b¦0¦1000¦A-¦0-3¶\
    [a&&b]¦a¦0¦1000¦A-¦miss¶\
    [a-z&&[^b]]¦b¦0¦1000¦A-¦miss¶\
    [a-z&&[^b]]¦c¦0¦1000¦A-¦0-1¶\
    [[a][b-c]]+¦abcd¦0¦1000¦A-¦0-3¶\
    [\\b]¦\u{8}¦0¦1000¦A-¦0-1¶\
    [a\\]]+¦a]¦0¦1000¦A-¦0-2¶\
    (?i:[b-c])+¦BcC¦0¦1000¦A-¦0-3¶\
    (?i:[^b])¦B¦0¦1000¦A-¦miss¶\
    [\\x41-\\x43]+¦ABCD¦0¦1000¦A-¦0-3¶\
    [[:alpha:]\\d_]+¦a1_-¦0¦1000¦A-¦0-3¶\
    a{2}¦aaa¦0¦1000¦A-¦0-2¶\
    a{2,}¦aaa¦0¦1000¦A-¦0-3¶\
    a{2,3}¦aaaa¦0¦1000¦A-¦0-3¶\
    a{,2}¦aaa¦0¦1000¦A-¦0-2¶\
    a{0}b¦ab¦0¦1000¦A-¦miss¶\
    a{2}?¦aaa¦0¦1000¦A-¦0-2¶\
    a{2,3}?¦aaa¦0¦1000¦A-¦0-2¶\
    a{¦a{¦0¦1000¦A-¦0-2¶\
    a{,}¦a{,}¦0¦1000¦A-¦0-4¶\
    }]¦}]¦0¦1000¦A-¦0-2¶\
    a+?¦aa¦0¦1000¦A-¦0-1¶\
    a??b¦ab¦0¦1000¦A-¦0-2¶\
    a?b¦b¦0¦1000¦A-¦0-1¶\
    (a|ab)(c|bcd)(d*)¦abcd¦0¦1000¦A-¦0-4 0-1 1-4 4-4¶\
    (?:a*)*b¦aab¦0¦1000¦A-¦0-3¶\
    (a*)*¦b¦0¦1000¦A-¦0-0 0-0¶\
    (a*)+¦aa¦0¦1000¦A-¦0-2 2-2¶\
    (?:a|b)*?c¦abc¦0¦1000¦A-¦0-3¶\
    (?:ab?){2}¦aba¦0¦1000¦A-¦0-3¶\
    (?:a{2}){2}¦aaaa¦0¦1000¦A-¦0-4¶\
    (a|b){2,}¦abab¦0¦1000¦A-¦0-4 3-4¶\
    (a)(?:b)(c)¦abc¦0¦1000¦A-¦0-3 0-1 2-3¶\
    (?<x>a)(?<y>b)¦ab¦0¦1000¦A-¦0-2 0-1 1-2¶\
    (?'z'b)¦b¦0¦1000¦A-¦0-1 0-1¶\
    a(?#c\\)d)*b¦aab¦0¦1000¦A-¦0-3¶\
    |a¦a¦0¦1000¦A-¦0-0¶\
    (|a)b¦ab¦0¦1000¦A-¦0-2 0-1¶\
    ()¦x¦0¦1000¦A-¦0-0 0-0¶\
    ¦x¦1¦1000¦A-¦1-1¶\
    (a|b){2}¦ab¦0¦1000¦A-¦0-2 1-2¶\
    a*b¦aab¦0¦8¦A-¦0-3¶\
    a*b¦aab¦0¦7¦A-¦spent¶\
    a*?b¦aab¦0¦9¦A-¦0-3¶\
    a*?b¦aab¦0¦8¦A-¦spent¶\
    (?:a?){3}¦¦0¦5¦A-¦0-0¶\
    (?:a?){3}¦¦0¦4¦A-¦spent¶\
    ¦¦0¦1¦A-¦0-0¶\
    ¦¦0¦0¦A-¦spent¶\
    (a|b){2}¦ab¦0¦13¦A-¦0-2 1-2¶\
    (a|b){2}¦ab¦0¦12¦A-¦spent¶\
    \\w+¦\u{e9}\u{3a9}1-¦0¦1000¦--¦0-3¶\
    \\s¦\u{85}¦0¦1000¦--¦0-1¶\
    \\d¦\u{663}¦0¦1000¦--¦0-1¶\
    \\W¦\u{e9}¦0¦1000¦--¦miss¶\
";

#[test]
fn plain_patterns_answer_as_their_table_says(rt: HostRuntime) -> Result<(), Fail> {
    assert_eq!(rt; faults(rt.alloc(), PLAIN, 107)?.as_str(), "");
    Ok(())
}

// The same of lookaround, atomic groups, back references and anchors. A back reference inside its own group answers
// as in Perl. Repeats of anchors and lookaround, and lookbehinds at the limit of their length, stand last: these answers
// are this project's own.
const NESTED: &str = "\
    (?=a)a¦a¦0¦1000¦A-¦0-1¶\
    (?=b)a¦a¦0¦1000¦A-¦miss¶\
    (?!a)b¦b¦0¦1000¦A-¦0-1¶\
    (?!a)a¦a¦0¦1000¦A-¦miss¶\
    (?<=a)b¦ab¦1¦1000¦A-¦1-2¶\
    (?<=a)b¦cb¦1¦1000¦A-¦miss¶\
    (?<!a)b¦cb¦1¦1000¦A-¦1-2¶\
    (?<!a)b¦ab¦1¦1000¦A-¦miss¶\
    (?<=a)b¦b¦0¦1000¦A-¦miss¶\
    (?<!a)b¦b¦0¦1000¦A-¦0-1¶\
    (?<=ab|c)x¦abx¦2¦1000¦A-¦2-3¶\
    (?<=ab|c)x¦cx¦1¦1000¦A-¦1-2¶\
    (?<!ab|c)x¦dx¦1¦1000¦A-¦1-2¶\
    (?<!ab|c)x¦abx¦2¦1000¦A-¦miss¶\
    (?<=(a))b¦ab¦1¦1000¦A-¦1-2 0-1¶\
    (?=(a))ab¦ab¦0¦1000¦A-¦0-2 0-1¶\
    (?!(a)b)a.¦ac¦0¦1000¦A-¦0-2 .¶\
    (?=a(?=b))ab¦ab¦0¦1000¦A-¦0-2¶\
    (?=a(?!c))ab¦ab¦0¦1000¦A-¦0-2¶\
    (?<=(?<=a)b)c¦abc¦2¦1000¦A-¦2-3¶\
    (?<=^a)b¦ab¦1¦1000¦A-¦1-2¶\
    (?=(a)(b)?)a¦ab¦0¦1000¦A-¦0-1 0-1 1-2¶\
    (?=(a|ab))ab\\1¦abab¦0¦1000¦A-¦0-3 0-1¶\
    (?<=\\Ba)b¦ab¦1¦1000¦A-¦miss¶\
    (?<=a{2})b¦aab¦2¦1000¦A-¦2-3¶\
    (?<=[ab]c)d¦bcd¦2¦1000¦A-¦2-3¶\
    (?>a*)ab¦aab¦0¦1000¦A-¦miss¶\
    (?>a|ab)c¦abc¦0¦1000¦A-¦miss¶\
    (?:a|ab)c¦abc¦0¦1000¦A-¦0-3¶\
    (?>(a|b)*)c¦abc¦0¦1000¦A-¦0-3 1-2¶\
    a*+ab¦aab¦0¦1000¦A-¦miss¶\
    a*ab¦aab¦0¦1000¦A-¦0-3¶\
    a++b¦aab¦0¦1000¦A-¦0-3¶\
    a?+a¦a¦0¦1000¦A-¦miss¶\
    a?+a¦aa¦0¦1000¦A-¦0-2¶\
    (?>a+)b|aac¦aac¦0¦1000¦A-¦0-3¶\
    (a)\\1¦aa¦0¦1000¦A-¦0-2 0-1¶\
    (a)\\1¦aA¦0¦1000¦A-¦miss¶\
    (?i)(a)\\1¦aA¦0¦1000¦A-¦0-2 0-1¶\
    (a)(b)\\2\\1¦abba¦0¦1000¦A-¦0-4 0-1 1-2¶\
    \\1(a)¦a¦0¦1000¦A-¦miss¶\
    (a)?\\1¦b¦0¦1000¦A-¦miss¶\
    (ab)\\1¦aba¦0¦1000¦A-¦miss¶\
    (a|b\\1)+¦aba¦0¦1000¦A-¦0-3 1-3¶\
    (a*)b\\1¦aabaa¦0¦1000¦A-¦0-5 0-2¶\
    (?<n>a|b)\\k<n>¦bb¦0¦1000¦A-¦0-2 0-1¶\
    (?<n>a)\\k'n'¦aa¦0¦1000¦A-¦0-2 0-1¶\
    \\k<n>(?<n>a)¦aa¦0¦1000¦A-¦miss¶\
    (?<n>a)(?<m>b)\\k<m>\\k<n>¦abba¦0¦1000¦A-¦0-4 0-1 1-2¶\
    (a)\\k<1>¦aa¦0¦1000¦A-¦0-2 0-1¶\
    a$¦a\nb¦0¦1000¦A-¦0-1¶\
    ^b¦a\nb¦2¦1000¦A-¦2-3¶\
    ^b¦ab¦1¦1000¦A-¦miss¶\
    \\bfoo\\b¦foo bar¦0¦1000¦A-¦0-3¶\
    \\Boo¦foo¦1¦1000¦A-¦1-3¶\
    \\b¦ a¦0¦1000¦A-¦miss¶\
    \\b¦ a¦1¦1000¦A-¦1-1¶\
    \\b¦a¦1¦1000¦A-¦1-1¶\
    \\B¦¦0¦1000¦A-¦0-0¶\
    \\b\u{e9}¦\u{e9}¦0¦1000¦A-¦0-1¶\
    a\\Z¦a\n¦0¦1000¦A-¦0-1¶\
    a\\Z¦a\n\n¦0¦1000¦A-¦miss¶\
    a\\z¦a¦0¦1000¦A-¦0-1¶\
    (?=a)a¦a¦0¦5¦A-¦0-1¶\
    (?=a)a¦a¦0¦4¦A-¦spent¶\
    (?=aaa)a¦aaa¦0¦2¦A-¦spent¶\
    (?!aab)a¦aaa¦0¦3¦A-¦spent¶\
    (?<=aab)c¦aabc¦3¦3¦A-¦spent¶\
    (?<!aac)c¦aabc¦3¦3¦A-¦spent¶\
    (?>a*)b¦aab¦0¦6¦A-¦spent¶\
    a*+b¦aab¦0¦6¦A-¦spent¶\
    (?<=b)a¦a¦0¦1¦A-¦miss¶\
    \\Aa¦a¦0¦1000¦A-¦0-1¶\
    \\Aa¦a¦0¦1000¦--¦miss¶\
    a\\Ab¦ab¦1¦1000¦A-¦miss¶\
    \\Gb¦ab¦1¦1000¦-1¦1-2¶\
    \\Gb¦ab¦1¦1000¦-0¦miss¶\
    \\Gb¦ab¦1¦1000¦--¦miss¶\
    \\Ga¦a¦0¦1000¦-0¦0-1¶\
    \\z¦a\n¦2¦1000¦--¦miss¶\
    \\z¦¦0¦1000¦--¦0-0¶\
    \\z¦ab¦1¦1000¦--¦miss¶\
    \\Z¦a\n¦2¦1000¦--¦2-2¶\
    \\Z¦a\n¦1¦1000¦--¦1-1¶\
    \\Z¦ab¦1¦1000¦--¦miss¶\
    ^¦a\n¦2¦1000¦--¦miss¶\
    $¦a\n¦2¦1000¦--¦2-2¶\
    \\b¦\u{e9}¦1¦1000¦--¦1-1¶\
    \\B¦\u{e9}\u{e8}¦1¦1000¦--¦1-1¶\
    (?<!(a))b¦cb¦1¦1000¦--¦1-2 .¶\
    (?<!(a))b¦ab¦1¦1000¦--¦miss¶\
    ^*a¦a¦0¦1000¦A-¦0-1¶\
    (?=a)*a¦a¦0¦1000¦A-¦0-1¶\
    (?<=(?>a))x¦ax¦1¦1000¦A-¦1-2¶\
    (?<=(a)\\1)x¦aax¦2¦1000¦A-¦LeftOut { at: 0 }¶\
    (?<=(?:a*){0})x¦x¦0¦1000¦A-¦LeftOut { at: 0 }¶\
    (?<=(?:a{4096}){4096})x¦x¦0¦1000¦A-¦miss¶\
    (?<=(?:a{4096}){4096}a)x¦x¦0¦1000¦A-¦LeftOut { at: 0 }¶\
    (a)\\10¦aa¦0¦1000¦A-¦LeftOut { at: 3 }¶\
    (a)\\k'1'¦aa¦0¦1000¦A-¦0-2 0-1¶\
";

#[test]
fn nested_runs_references_and_anchors_answer_as_their_table_says(
    rt: HostRuntime,
) -> Result<(), Fail> {
    assert_eq!(rt; faults(rt.alloc(), NESTED, 100)?.as_str(), "");
    Ok(())
}

/// The patterns of these texts.
fn all_read(alloc: Global, patterns: &[&str]) -> Result<Vec<Rc<Pattern>>, Fail> {
    let mut read = Vec::new(alloc);
    for pattern in patterns {
        let pattern = read_pattern(alloc, pattern)?;
        read.push(Rc::new(alloc, pattern)?)?;
    }
    Ok(read)
}

/// What a search answers, and the captures behind it.
fn searched(
    alloc: Global,
    scanner: &Scanner,
    text: &[char],
    from: u32,
    budget: u32,
) -> Result<String, AllocError> {
    if text.len() > 1000 || from as usize > text.len() || scanner.groups() > 9 {
        return format!(in alloc; "out of range");
    }
    let mut work = Work::new(alloc, budget, 9)?;
    let found = scanner.find(&mut work, text, from, FLAGS);
    let captures = captures(alloc, &work)?;
    format!(in alloc; "{found:?} {captures}")
}

#[test]
fn the_first_match_is_found(rt: HostRuntime) -> Result<(), Fail> {
    let rows: [(&[&str], &str, u32, u32, &str); 18] = [
        (&["b", "a"], "ab", 0, 100, "At { index: 1 } 0-1"),
        (&["b", "a"], "c", 0, 2000, "Nowhere ."),
        (&["b", "a"], "ab", 1, 2000, "At { index: 0 } 1-2"),
        (&["b", "a"], "ab", 2, 2000, "Nowhere ."),
        (&["a", "a(b)"], "xab", 0, 2000, "At { index: 0 } 1-2"),
        (&["b", "[^a-z]"], "a\u{e9}", 0, 2000, "At { index: 1 } 1-2"),
        (&["^b", "b"], "ab", 0, 2000, "At { index: 1 } 1-2"),
        (&["^b", "b"], "a\nb", 0, 2000, "At { index: 0 } 2-3"),
        (&["(?!b)."], "ba", 0, 2000, "At { index: 0 } 1-2"),
        (&["(?<!a)b"], "abb", 0, 2000, "At { index: 0 } 2-3"),
        (&["b", "$"], "aa", 0, 2000, "At { index: 1 } 2-2"),
        (
            &["x(?<=(a)x)", "z"],
            "xax",
            0,
            100,
            "At { index: 0 } 2-3 1-2",
        ),
        (&["c|b", "(?:a|d)+"], "ada", 0, 2000, "At { index: 1 } 0-3"),
        (&["c?d", "[^a-c]"], "abcd", 0, 2000, "At { index: 0 } 2-4"),
        (&["$"], "ab", 0, 100, "At { index: 0 } 2-2"),
        (&["c", "a*b"], "xaab", 0, 5, "Spent { index: 1, at: 1 } ."),
        (&["ab"], "b", 0, 0, "Spent { index: 0, at: 0 } ."),
        (&[], "ab", 0, 100, "Nowhere ."),
    ];
    for (patterns, text, from, budget, expected) in rows {
        let text: Vec<char> = text.chars().collect(rt.alloc())?;
        let read = all_read(rt.alloc(), patterns)?;
        if read.len() > 100 {
            continue;
        }
        let scanner = Scanner::new(rt.alloc(), read.as_slice())?;
        let found = searched(rt.alloc(), &scanner, text.as_slice(), from, budget)?;
        assert_eq!(rt; found.as_str(), expected);
    }
    Ok(())
}

#[test]
fn what_stands_behind_lookarounds_is_found(rt: HostRuntime) -> Result<(), Fail> {
    let rows: [(&str, &str, &str); 8] = [
        (
            "(?:(?<=\\.{3})|(?<!\\.)\\b)t",
            "...t",
            "At { index: 0 } 3-4",
        ),
        ("(?:(?<=\\.{3})|(?<!\\.)\\b)t", ".t", "Nowhere ."),
        ("(?=a{2,3}b)", "xaaab", "At { index: 0 } 1-1"),
        ("(?![_$]+[^A-Z])[A-Z_]+", "_a_B", "At { index: 0 } 2-4"),
        ("(?!a+b)[ac]", "aabc", "At { index: 0 } 3-4"),
        ("(?!a+b)", "ab", "At { index: 0 } 1-1"),
        ("(?!a*)b", "ab", "Nowhere ."),
        ("(?!(?:ab){9}c)a", "xa", "At { index: 0 } 1-2"),
    ];
    for (pattern, text, expected) in rows {
        let text: Vec<char> = text.chars().collect(rt.alloc())?;
        let read = all_read(rt.alloc(), &[pattern])?;
        if read.len() > 100 {
            continue;
        }
        let scanner = Scanner::new(rt.alloc(), read.as_slice())?;
        let found = searched(rt.alloc(), &scanner, text.as_slice(), 0, 2000)?;
        assert_eq!(rt; found.as_str(), expected);
    }
    Ok(())
}

#[test]
fn what_stands_before_a_place_is_looked_at(rt: HostRuntime) -> Result<(), Fail> {
    let rows: [(&[&str], &str, u32, &str); 8] = [
        (&["\\bb", "b"], "ab", 0, "At { index: 1 } 1-2"),
        (&["\\bb", "b"], "a b", 0, "At { index: 0 } 2-3"),
        (&["\\b"], "ab", 1, "At { index: 0 } 2-2"),
        (&["(?:\\b)c|\\Bb"], "abc", 0, "At { index: 0 } 1-2"),
        (&["(?<=a)b", "b"], "b", 0, "At { index: 1 } 0-1"),
        (&["(?<!a)b", "b"], "ab", 0, "At { index: 1 } 1-2"),
        (&["(?<![a\u{e9}])b"], "\u{e9}bb", 0, "At { index: 0 } 2-3"),
        (&["(?=^)b", "b"], "b", 0, "At { index: 0 } 0-1"),
    ];
    for (patterns, text, from, expected) in rows {
        let text: Vec<char> = text.chars().collect(rt.alloc())?;
        let read = all_read(rt.alloc(), patterns)?;
        if read.len() > 100 {
            continue;
        }
        let scanner = Scanner::new(rt.alloc(), read.as_slice())?;
        let found = searched(rt.alloc(), &scanner, text.as_slice(), from, 2000)?;
        assert_eq!(rt; found.as_str(), expected);
    }
    Ok(())
}

#[test]
fn patterns_beyond_the_first_word_of_a_row_are_found(rt: HostRuntime) -> Result<(), Fail> {
    let mut patterns = Vec::new(rt.alloc());
    for _ in 0..65 {
        patterns.push("b")?;
    }
    patterns.push("a")?;
    let read = all_read(rt.alloc(), patterns.as_slice())?;
    if read.len() > 100 {
        return Ok(());
    }
    let scanner = Scanner::new(rt.alloc(), read.as_slice())?;
    let text = ['c', 'a'];
    let found = searched(rt.alloc(), &scanner, text.as_slice(), 0, 2000)?;
    assert_eq!(rt; found.as_str(), "At { index: 65 } 1-2");
    Ok(())
}
