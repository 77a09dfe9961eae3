//! Tests show that sessions over grammar and bracket files have the worked replies.

use crate::status::Status;
use crate::tests::run_over;
use piece_io::{MemFiles, MemSink, MemSource};
use std::alloc::{AllocError, Global};
use std::test::Fail;

/// A run over a text with a grammar and a bracket file, each empty where it isn't named: the words behind the text's,
/// the text, the script, and what must be written and the status.
#[derive(Drop)]
struct FileCase<'a> {
    grammar: &'a str,
    brackets: &'a str,
    words: &'a [&'a str],
    text: &'a str,
    script: &'a str,
    wrote: &'a str,
    status: Status,
}

const BLOCK: &str =
    r#"{"scopeName":"s","patterns":[{"name":"comment.block","begin":"/\\*","end":"\\*/"}]}"#;

const SLOW: &str = r#"{"scopeName":"s","patterns":[{"match":"(a*)*b","name":"k"}]}"#;

const HERE: &str =
    r#"{"scopeName":"s","patterns":[{"name":"string.here","begin":"<<(\\w+)","end":"^\\1$"}]}"#;

const QUOTE: &str =
    r#"{"scopeName":"s","patterns":[{"name":"string.quote","begin":"^>","while":"^>"}]}"#;

const CAPTURED: &str =
    r#"{"scopeName":"s","patterns":[{"match":"a(?=(bc))","name":"m","captures":{"1":{"name":"cap","patterns":[{"match":"c","name":"in"}]}}}]}"#;

const EMPTY_ENDS: &str =
    r#"{"scopeName":"s","patterns":[{"name":"z","begin":"(?=a)","end":"(?=a)"}]}"#;

const TINY: &str =
    r##"{"name":"Tiny","scopeName":"source.tiny","fileTypes":["tiny"],"patterns":[{"include":"#all"}],"repository":{"all":{"patterns":[{"include":"#line"},{"include":"#text"}]},"line":{"match":"//.*$","name":"comment.line.tiny"},"text":{"begin":"\"","end":"\"","name":"string.quoted.tiny","patterns":[{"match":"\\\\.","name":"constant.character.escape.tiny"}]}}}"##;

const ANCHORED: &str =
    r#"{"scopeName":"s","patterns":[{"name":"r","begin":"a\\n","end":"z","patterns":[{"match":"\\Gb","name":"g"}]}]}"#;

const UNREAD: &str =
    r#"{"scopeName":"s","patterns":[{"match":"(?~x)","name":"q"},{"match":"(","name":"q"}]}"#;

const NAMED: &str =
    r#"{"scopeName":"s","patterns":[{"match":"(\\.a)|b","name":"x.$1k${1:/upcase} y.$7"}]}"#;

const CUT: &str = r#"{"scopeName":"s"#;

const USUAL_FILE: &str = r#"{
  // the usual three
  "brackets": [["{","}"],["[","]"],["(",")"],],
  "comments": {"lineComment":"//"},
}
"#;

const WORDS: &str = r#"{"brackets":[["begin","end"]]}"#;

const ONE_TEXT: &str = r#"{"brackets":[["("]]}"#;

const CASES: [FileCase<'static>; 15] = [
    // A block comment that an edit begins holds the brackets behind it.
    FileCase {
        grammar: BLOCK,
        brackets: "",
        words: &[],
        text: "x\n(\n*/ )",
        script: "{\"brackets\":[0,2]}\n{\"edit\":[[0,0,0,0,\"/*\"]]}\n{\"brackets\":[0,2]}\n{\"tokens\":0}\n",
        wrote: "{\"opened\":3,\"unread\":0}\n{\"brackets\":[[1,0,1,0,0,0],[2,3,4,0,0,0]]}\n{\"edited\":3}\n{\"brackets\":[[2,3,4,0,0,6]]}\n{\"tokens\":[[0,2,[\"s\",\"comment.block\"],1],[2,3,[\"s\",\"comment.block\"],1]]}\n",
        status: Status::Done,
    },
    // A turn between two edits changes no answer.
    FileCase {
        grammar: BLOCK,
        brackets: "",
        words: &[],
        text: "x\n(\n*/ )",
        script: "{\"edit\":[[0,0,0,0,\"/*\"]]}\n{\"turn\":1}\n{\"edit\":[[0,0,0,0,\"y\"]]}\n{\"brackets\":[0,2]}\n",
        wrote: "{\"opened\":3,\"unread\":0}\n{\"edited\":3}\n{\"turned\":true}\n{\"edited\":3}\n{\"brackets\":[[2,3,4,0,0,6]]}\n",
        status: Status::Done,
    },
    // An attempt that is spent ends the run over its line, and the next line goes on.
    FileCase {
        grammar: SLOW,
        brackets: "",
        words: &["--steps", "1000"],
        text: "aaaaaaaaaaaaaaaaaaaaaaaaaaaaaaaaaaaaaaaa b\na b",
        script: "{\"tokens\":0}\n{\"tokens\":1}\n",
        wrote: "{\"opened\":2,\"unread\":0}\n{\"tokens\":[[0,42,[\"s\"],0]]}\n{\"tokens\":[[0,2,[\"s\"],0],[2,3,[\"s\",\"k\"],0]]}\n",
        status: Status::Done,
    },
    // An end with a back reference is what its begin captured.
    FileCase {
        grammar: HERE,
        brackets: "",
        words: &[],
        text: "<<AB\n(\nAB\n(",
        script: "{\"brackets\":[0,3]}\n{\"edit\":[[0,3,0,4,\"\"]]}\n{\"brackets\":[0,3]}\n",
        wrote: "{\"opened\":4,\"unread\":0}\n{\"brackets\":[[3,0,1,0,0,6]]}\n{\"edited\":4}\n{\"brackets\":[]}\n",
        status: Status::Done,
    },
    // A while rule goes on from line to line.
    FileCase {
        grammar: QUOTE,
        brackets: "",
        words: &[],
        text: "> (\n> (\n> (",
        script: "{\"brackets\":[0,2]}\n{\"tokens\":2}\n{\"edit\":[[1,0,1,1,\"\"]]}\n{\"brackets\":[0,2]}\n{\"tokens\":1}\n",
        wrote: "{\"opened\":3,\"unread\":0}\n{\"brackets\":[]}\n{\"tokens\":[[0,1,[\"s\",\"string.quote\"],2],[1,3,[\"s\",\"string.quote\"],2]]}\n{\"edited\":3}\n{\"brackets\":[[1,1,2,0,0,6]]}\n{\"tokens\":[[0,2,[\"s\"],0]]}\n",
        status: Status::Done,
    },
    // A capture behind the match is tokenised anew.
    FileCase {
        grammar: CAPTURED,
        brackets: "",
        words: &[],
        text: "abcd",
        script: "{\"tokens\":0}\n",
        wrote: "{\"opened\":1,\"unread\":0}\n{\"tokens\":[[0,1,[\"s\",\"m\"],0],[1,2,[\"s\",\"m\",\"cap\"],0],[2,3,[\"s\",\"m\",\"cap\",\"in\"],0],[3,4,[\"s\"],0]]}\n",
        status: Status::Done,
    },
    // A rule that ends where it began is not begun again there.
    FileCase {
        grammar: EMPTY_ENDS,
        brackets: "",
        words: &[],
        text: "ba\nb",
        script: "{\"tokens\":0}\n{\"tokens\":1}\n",
        wrote: "{\"opened\":2,\"unread\":0}\n{\"tokens\":[[0,1,[\"s\"],0],[1,2,[\"s\",\"z\"],0]]}\n{\"tokens\":[[0,1,[\"s\",\"z\"],0]]}\n",
        status: Status::Done,
    },
    // A begin that takes the end of its line anchors the next.
    FileCase {
        grammar: ANCHORED,
        brackets: "",
        words: &[],
        text: "a\nb\nbb",
        script: "{\"tokens\":0}\n{\"tokens\":1}\n{\"tokens\":2}\n",
        wrote: "{\"opened\":3,\"unread\":0}\n{\"tokens\":[[0,1,[\"s\",\"r\"],0]]}\n{\"tokens\":[[0,1,[\"s\",\"r\",\"g\"],0]]}\n{\"tokens\":[[0,1,[\"s\",\"r\",\"g\"],0],[1,2,[\"s\",\"r\"],0]]}\n",
        status: Status::Done,
    },
    // Patterns that cannot be read are counted and never match.
    FileCase {
        grammar: UNREAD,
        brackets: "",
        words: &[],
        text: "x",
        script: "{\"tokens\":0}\n",
        wrote: "{\"opened\":1,\"unread\":2}\n{\"tokens\":[[0,1,[\"s\"],0]]}\n",
        status: Status::Done,
    },
    // Names with captures in them.
    FileCase {
        grammar: NAMED,
        brackets: "",
        words: &[],
        text: ".ab",
        script: "{\"tokens\":0}\n",
        wrote: "{\"opened\":1,\"unread\":0}\n{\"tokens\":[[0,2,[\"s\",\"x.akA\",\"y.$7\"],0],[2,3,[\"s\",\"x.k\",\"y.$7\"],0]]}\n",
        status: Status::Done,
    },
    // A language with strings and comments, and a bracket file with comments and trailing commas.
    FileCase {
        grammar: TINY,
        brackets: USUAL_FILE,
        words: &[],
        text: "function f(a) {\n  if (a[0] > 1) {\n    log(\"(\" + a); // )\n  }\n}\n",
        script: "{\"brackets\":[0,5]}\n{\"tokens\":2}\n{\"guides\":[0,5]}\n{\"pairs\":[3,3]}\n{\"match\":[2,8]}\n{\"around\":[2,0]}\n{\"level\":[2,9]}\n{\"jump\":[2,0]}\n{\"edit\":[[2,16,2,16,\")\"]]}\n{\"brackets\":[2,2]}\n",
        wrote: "{\"opened\":6,\"unread\":0}\n{\"brackets\":[[0,10,11,0,0,0],[0,12,13,0,0,0],[0,14,15,0,0,0],[1,5,6,1,0,1],[1,7,8,2,0,2],[1,9,10,2,0,2],[1,14,15,1,0,1],[1,16,17,1,1,1],[2,7,8,2,0,2],[2,15,16,2,0,2],[3,2,3,1,1,1],[4,0,1,0,0,0]]}\n{\"tokens\":[[0,8,[\"source.tiny\"],0],[8,9,[\"source.tiny\",\"string.quoted.tiny\"],2],[9,10,[\"source.tiny\",\"string.quoted.tiny\"],2],[10,11,[\"source.tiny\",\"string.quoted.tiny\"],2],[11,18,[\"source.tiny\"],0],[18,22,[\"source.tiny\",\"comment.line.tiny\"],1]]}\n{\"guides\":[[1,0,0],[2,0,0],[2,2,1],[3,0,0],[3,2,1],[4,0,0]]}\n{\"pairs\":[[[0,14,15],[4,0,1],0,0],[[1,16,17],[3,2,3],1,1]]}\n{\"match\":[[2,7,8],[2,15,16]]}\n{\"around\":[[1,16,17],[3,2,3]]}\n{\"level\":3}\n{\"jump\":[3,2]}\n{\"edited\":6}\n{\"brackets\":[[2,7,8,2,0,2],[2,15,16,2,0,2],[2,16,17,2,0,6]]}\n",
        status: Status::Done,
    },
    // Words as brackets stand alone.
    FileCase {
        grammar: "",
        brackets: WORDS,
        words: &[],
        text: "begin endx",
        script: "{\"brackets\":[0,0]}\n{\"edit\":[[0,9,0,10,\"\"]]}\n{\"brackets\":[0,0]}\n{\"edit\":[[0,6,0,6,\"x\"]]}\n{\"brackets\":[0,0]}\n",
        wrote: "{\"opened\":1,\"unread\":0}\n{\"brackets\":[[0,0,5,0,0,6]]}\n{\"edited\":1}\n{\"brackets\":[[0,0,5,0,0,0],[0,6,9,0,0,0]]}\n{\"edited\":1}\n{\"brackets\":[[0,0,5,0,0,6]]}\n",
        status: Status::Done,
    },
    // A grammar file that is cut.
    FileCase {
        grammar: CUT,
        brackets: "",
        words: &[],
        text: "a",
        script: "{\"line\":0}\n",
        wrote: "",
        status: Status::GrammarFile,
    },
    // A bracket file with a pair of one text.
    FileCase {
        grammar: "",
        brackets: ONE_TEXT,
        words: &[],
        text: "a",
        script: "{\"line\":0}\n",
        wrote: "",
        status: Status::BracketFile,
    },
    // The grammar is tested before the bracket file.
    FileCase {
        grammar: CUT,
        brackets: ONE_TEXT,
        words: &[],
        text: "a",
        script: "{\"line\":0}\n",
        wrote: "",
        status: Status::GrammarFile,
    },
];

/// The words for the files that a case names, and its own behind them.
fn words_of<'a>(alloc: Global, case: &FileCase<'a>) -> Result<Vec<&'a str>, AllocError> {
    let mut words = Vec::new(alloc);
    words.push("text")?;
    if !case.grammar.is_empty() {
        words.push("--grammar")?;
        words.push("grammar")?;
    }
    for word in case.words {
        words.push(*word)?;
    }
    if !case.brackets.is_empty() {
        words.push("--brackets")?;
        words.push("brackets")?;
    }
    Ok(words)
}

fn files_of(alloc: Global, case: &FileCase<'_>) -> Result<MemFiles, AllocError> {
    let mut files = MemFiles::new(alloc, &[])?;
    files.put("text", case.text.as_bytes())?;
    files.put("grammar", case.grammar.as_bytes())?;
    files.put("brackets", case.brackets.as_bytes())?;
    Ok(files)
}

#[test]
fn sessions_over_grammars_have_the_worked_replies(rt: HostRuntime) -> Result<(), Fail> {
    for (n, case) in CASES.iter().enumerate() {
        let words = words_of(rt.alloc(), case)?;
        let mut files = files_of(rt.alloc(), case)?;
        let mut script = MemSource::new(rt.alloc(), case.script.as_bytes(), 65_536, &[])?;
        let mut sink = MemSink::new(rt.alloc(), 1 << 20, 65_536, &[])?;
        let status = run_over(
            rt.alloc(),
            words.as_slice(),
            &mut files,
            &mut script,
            &mut sink,
        )?;
        assert_eq!(rt; status, case.status, "case {n}");
        assert_eq!(rt; sink.bytes(), case.wrote.as_bytes(), "case {n}");
    }
    Ok(())
}
