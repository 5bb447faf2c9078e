//! Lines of words, and what they ask for.

use cm_text::Quote;
use command_words::{Invocation, Request, read_words};
use std::alloc::{AllocError, Global};
use std::test::Fail;

const NO_COMMAND: &str = "usage";

// Lines, with the script, the files, the extensions, what is set, the fuel and the tab width.
const CASES: [(&str, &str); 48] = [
    ("-t s.js a.js", "s.js a.js .js 10000000 4"),
    ("-ts.js a.js", "s.js a.js .js 10000000 4"),
    ("-t=s.js a.js", "s.js a.js .js 10000000 4"),
    ("--transform s.js a.js", "s.js a.js .js 10000000 4"),
    ("--transform=s.js a.js", "s.js a.js .js 10000000 4"),
    (
        "a.js -t s.js b.js -dp c.js",
        "s.js a.js b.js c.js .js dry print 10000000 4",
    ),
    ("-dpts.js a.js", "s.js a.js .js dry print 10000000 4"),
    (
        "--dry --print --fail-on-error a -t s",
        "s a .js dry print fail 10000000 4",
    ),
    ("-t s.js -- -d --fuel", "s.js -d --fuel .js 10000000 4"),
    ("-t s.js a.js - b.js", "s.js a.js - b.js .js 10000000 4"),
    ("-t s a --fuel=5", "s a .js 5 4"),
    ("-t s a --fuel 0000000000005", "s a .js 5 4"),
    ("-t s a --fuel 1000000000000", "s a .js 1000000000000 4"),
    (
        "-t s a --extensions js,mjs,ts",
        "s a .js .mjs .ts 10000000 4",
    ),
    ("-t s a --tab-width 004", "s a .js 10000000 4"),
    (
        "-t s a --tab-width=16 --use-tabs",
        "s a .js tabs 10000000 16",
    ),
    (
        "-t s a --quote single --trailing-comma",
        "s a .js single comma 10000000 4",
    ),
    (
        "-t s a --quote double --arrow-parens",
        "s a .js arrow 10000000 4",
    ),
    ("-t s a --no-curly-spacing", "s a .js tight 10000000 4"),
    ("-d a.js", NO_COMMAND),
    ("-t s.js", NO_COMMAND),
    ("a.js -t", NO_COMMAND),
    ("-d -t s -d a", NO_COMMAND),
    ("-dd -t s a", NO_COMMAND),
    ("-d --dry -t s a", NO_COMMAND),
    ("-t s -t s a", NO_COMMAND),
    ("-t s a --fuel 5 --fuel 5", NO_COMMAND),
    ("-t s a --fuel 0", NO_COMMAND),
    ("-t s a --fuel +5", NO_COMMAND),
    ("-t s a --fuel 5k", NO_COMMAND),
    ("-t s a --fuel 1000000000001", NO_COMMAND),
    ("-t s a --fuel 00000000000005", NO_COMMAND),
    ("-t s a --extensions ,", NO_COMMAND),
    ("-t s a --extensions js,,ts", NO_COMMAND),
    ("-t s a --extensions=", NO_COMMAND),
    ("-t s a --tab-width 0", NO_COMMAND),
    ("-t s a --tab-width 17", NO_COMMAND),
    ("-t s a --quote back", NO_COMMAND),
    ("-t s a --dry=true", NO_COMMAND),
    ("-t s a --help", NO_COMMAND),
    ("-t s a -x", NO_COMMAND),
    ("--sample 1", "sample 1"),
    ("--sample 20000", "sample 20000"),
    ("--sample 0", NO_COMMAND),
    ("--sample 20001", NO_COMMAND),
    ("--sample 000003", NO_COMMAND),
    ("--sample 3 x", NO_COMMAND),
    ("-t s a --sample 3", NO_COMMAND),
];

// What the words ask for, with what is set by short names.
fn shown(alloc: Global, read: &Invocation) -> Result<String, Fail> {
    let mut text = String::from_str(alloc, read.script.get())?;
    for file in read.files.as_slice() {
        text.push_str(" ")?;
        text.push_str(file.get())?;
    }
    for extension in read.extensions.as_slice() {
        text.push_str(" .")?;
        text.push_str(extension.get())?;
    }
    let flags = [
        (read.dry, " dry"),
        (read.print, " print"),
        (read.fail_on_error, " fail"),
        (read.layout.use_tabs, " tabs"),
        (read.layout.quote == Some(Quote::Single), " single"),
        (read.layout.trailing_comma, " comma"),
        (read.layout.tight_braces, " tight"),
        (read.layout.arrow_parens, " arrow"),
    ];
    for (is_set, name) in flags {
        if is_set {
            text.push_str(name)?;
        }
    }
    let fuel = read.fuel;
    let width = read.layout.tab_width;
    Ok(format!(in alloc; "{text} {fuel} {width}")?)
}

fn words_of(alloc: Global, line: &str) -> Result<Vec<String>, AllocError> {
    let mut words = Vec::new(alloc);
    for word in line.split(' ') {
        words.push(String::from_str(alloc, word)?)?;
    }
    Ok(words)
}

#[test]
fn reads_lines(rt: HostRuntime) -> Result<(), Fail> {
    let alloc = rt.alloc();
    for (line, wanted) in CASES {
        let words = words_of(alloc, line)?;
        let answer = match read_words(alloc, words.as_slice())? {
            Some(Request::Run(read)) => shown(alloc, &read)?,
            Some(Request::Sample { count }) => format!(in alloc; "sample {count}")?,
            None => String::from_str(alloc, NO_COMMAND)?,
        };
        assert!(rt; answer.as_str() == wanted, "{line}: {answer}");
    }
    Ok(())
}
