//! Rows of words, for each command and option: what they settle, and what a person is told.
use super::{find_wrong, read_words};
use resp_value::NoMemory;
use std::alloc::Global;
use std::test::Fail;

/// The words of a line, which spaces part here.
fn words_of(alloc: Global, line: &str) -> Result<Vec<String>, NoMemory> {
    let mut words = Vec::new(alloc);
    if !line.is_empty() {
        for word in line.split(' ') {
            let mut text = String::new(alloc);
            text.push_str(word)?;
            words.push(text)?;
        }
    }
    Ok(words)
}

// Words that ask for something: the ends of each number's range in both forms, and other values.
const TAKEN: &str = "\
world --table-max 1
world --table-max=1
world --table-max 4000000000
world --table-max=4000000000
world --out-max 1
world --out-max=1
world --out-max 4000000000
world --out-max=4000000000
world --history-max 1
world --history-max=1
world --history-max 4000000000
world --history-max=4000000000
storm --number 0 --steps 0
storm --number=0 --steps 0
storm --number 18446744073709551615 --steps 0
storm --number=18446744073709551615 --steps 0
storm --steps 0 --number 0
storm --steps=0 --number 0
storm --steps 200000 --number 0
storm --steps=200000 --number 0
serve --port 1
serve --port=1
serve --port 65535
serve --port=65535
serve --workers 1 --port 1
serve --workers=1 --port 1
serve --workers 64 --port 1
serve --workers=64 --port 1
serve --connections 0 --port 1
serve --connections=0 --port 1
serve --connections 1000000 --port 1
serve --connections=1000000 --port 1
serve --table-max 1 --port 1
serve --table-max=1 --port 1
serve --table-max 4000000000 --port 1
serve --table-max=4000000000 --port 1
serve --out-max 1 --port 1
serve --out-max=1 --port 1
serve --out-max 4000000000 --port 1
serve --out-max=4000000000 --port 1
serve --history-max 1 --port 1
serve --history-max=1 --port 1
serve --history-max 4000000000 --port 1
serve --history-max=4000000000 --port 1
script --capacity 1 --connect h:1
script --capacity=1 --connect h:1
script --capacity 1000000 --connect h:1
script --capacity=1000000 --connect h:1
world
world --out-max 6 --table-max=5
script --connect h:1
script --connect ::1:65535
script --connect=-h:1
script --connect=--redirect:1
script --redirect --connect h:1
script --connect h:1 --redirect --resp=3
script --redirect --resp 2 --connect h:1
script --resp=2 --mode optin --redirect --connect h:1
script --mode bcast --redirect --prefix a --noloop --connect h:1 --resp 2
script --resp=3 --connect h:1 --noloop
script --mode default --connect h:1
script --mode optin --connect h:1
script --mode=optout --connect h:1
script --prefix a --mode bcast --connect h:1
script --prefix=-a --mode bcast --connect h:1
script --prefix=a=b --mode bcast --connect h:1
script --mode bcast --connect h:1";

// Words that ask for nothing: one past each end, another spelling, no value, twice, and others.
const REFUSED: &str = "\
world --table-max 0
world --table-max=4000000001
world --table-max 04000000000
world --table-max +4000000000
world --table-max -4000000000
world --table-max=-4000000000
world --table-max=
world --table-max
world --table-max
world --table-max 1 --table-max 1
world --table-max=1 --table-max=4000000000
world --out-max 0
world --out-max=4000000001
world --out-max 04000000000
world --out-max +4000000000
world --out-max -4000000000
world --out-max=-4000000000
world --out-max=
world --out-max
world --out-max
world --out-max 1 --out-max 1
world --out-max=1 --out-max=4000000000
world --history-max 0
world --history-max=4000000001
world --history-max 04000000000
world --history-max +4000000000
world --history-max -4000000000
world --history-max=-4000000000
world --history-max=
world --history-max
world --history-max
world --history-max 1 --history-max 1
world --history-max=1 --history-max=4000000000
storm --number 00 --steps 0
storm --number=18446744073709551616 --steps 0
storm --number 018446744073709551615 --steps 0
storm --number +18446744073709551615 --steps 0
storm --number -18446744073709551615 --steps 0
storm --number=-18446744073709551615 --steps 0
storm --number= --steps 0
storm --number --steps 0
storm --steps 0 --number
storm --number 0 --number 0 --steps 0
storm --number=0 --steps 0 --number=18446744073709551615
storm --steps 00 --number 0
storm --steps=200001 --number 0
storm --steps 0200000 --number 0
storm --steps +200000 --number 0
storm --steps -200000 --number 0
storm --steps=-200000 --number 0
storm --steps= --number 0
storm --steps --number 0
storm --number 0 --steps
storm --steps 0 --steps 0 --number 0
storm --steps=0 --number 0 --steps=200000
serve --port 0
serve --port=65536
serve --port 065535
serve --port +65535
serve --port -65535
serve --port=-65535
serve --port=
serve --port
serve --port
serve --port 1 --port 1
serve --port=1 --port=65535
serve --workers 0 --port 1
serve --workers=65 --port 1
serve --workers 064 --port 1
serve --workers +64 --port 1
serve --workers -64 --port 1
serve --workers=-64 --port 1
serve --workers= --port 1
serve --workers --port 1
serve --port 1 --workers
serve --workers 1 --workers 1 --port 1
serve --workers=1 --port 1 --workers=64
serve --connections 00 --port 1
serve --connections=1000001 --port 1
serve --connections 01000000 --port 1
serve --connections +1000000 --port 1
serve --connections -1000000 --port 1
serve --connections=-1000000 --port 1
serve --connections= --port 1
serve --connections --port 1
serve --port 1 --connections
serve --connections 0 --connections 0 --port 1
serve --connections=0 --port 1 --connections=1000000
serve --table-max 0 --port 1
serve --table-max=4000000001 --port 1
serve --table-max 04000000000 --port 1
serve --table-max +4000000000 --port 1
serve --table-max -4000000000 --port 1
serve --table-max=-4000000000 --port 1
serve --table-max= --port 1
serve --table-max --port 1
serve --port 1 --table-max
serve --table-max 1 --table-max 1 --port 1
serve --table-max=1 --port 1 --table-max=4000000000
serve --out-max 0 --port 1
serve --out-max=4000000001 --port 1
serve --out-max 04000000000 --port 1
serve --out-max +4000000000 --port 1
serve --out-max -4000000000 --port 1
serve --out-max=-4000000000 --port 1
serve --out-max= --port 1
serve --out-max --port 1
serve --port 1 --out-max
serve --out-max 1 --out-max 1 --port 1
serve --out-max=1 --port 1 --out-max=4000000000
serve --history-max 0 --port 1
serve --history-max=4000000001 --port 1
serve --history-max 04000000000 --port 1
serve --history-max +4000000000 --port 1
serve --history-max -4000000000 --port 1
serve --history-max=-4000000000 --port 1
serve --history-max= --port 1
serve --history-max --port 1
serve --port 1 --history-max
serve --history-max 1 --history-max 1 --port 1
serve --history-max=1 --port 1 --history-max=4000000000
script --capacity 0 --connect h:1
script --capacity=1000001 --connect h:1
script --capacity 01000000 --connect h:1
script --capacity +1000000 --connect h:1
script --capacity -1000000 --connect h:1
script --capacity=-1000000 --connect h:1
script --capacity= --connect h:1
script --capacity --connect h:1
script --connect h:1 --capacity
script --capacity 1 --capacity 1 --connect h:1
script --capacity=1 --connect h:1 --capacity=1000000
world --
world -
world -h
world --help
world help
world --table 5
world --table-max 5 6
world --table-max 5 --
world --table-max --
world --table-max -
world --=5
world ---table-max 5
world --table-max --out-max 6
world --number 1
world  
storm
storm --steps 1
storm --number 1
serve
serve --workers 1
script
script --connect h
script --connect :1
script --connect h:0
script --connect h:
script --connect h:1:
script --connect h:1 --connect h:1
script --connect h:1 --resp 2
script --connect h:1 --resp 4
script --connect h:1 --resp=
script --connect h:1 --mode Optin
script --connect h:1 --mode=
script --connect h:1 --prefix a
script --connect h:1 --prefix a --mode optin
script --connect h:1 --prefix= --mode bcast
script --connect h:1 --prefix -a --mode bcast
script --connect h:1 --noloop --noloop
script --connect h:1 --noloop=true
script --connect h:1 --noloop=
script --connect h:1 --redirect true
script --connect h:1 --redirect=true
script --connect h:1 --redirect --redirect
script --connect h:1 --resp 2 --redirect --prefix a
script --redirect
script --connect --noloop";

/// Whether each row, a command and its words, is taken, or is not, and a person is told so.
fn are_judged(alloc: Global, rows: &str, is_taken: bool) -> Result<bool, NoMemory> {
    for row in rows.split('\n') {
        let words = words_of(alloc, row)?;
        let asked = read_words(alloc, words.as_slice())?;
        let wrong = find_wrong(words.as_slice());
        if asked.is_some() != is_taken || wrong.is_none() != is_taken {
            return Ok(false);
        }
    }
    Ok(true)
}

#[test]
fn a_number_has_its_range_and_one_spelling(rt: HostRuntime) -> Result<(), Fail> {
    let alloc = rt.alloc();
    assert!(rt;
        are_judged(alloc, TAKEN, true)?,
        "a row of TAKEN is refused"
    );
    assert!(rt;
        are_judged(alloc, REFUSED, false)?,
        "a row of REFUSED is taken"
    );
    Ok(())
}

#[test]
fn values_are_those_of_the_words_or_the_defaults(rt: HostRuntime) -> Result<(), Fail> {
    let alloc = rt.alloc();
    for (line, wanted) in [
        (
            "world",
            "World(LimitSettings { table_max: 1000000, out_max: 8388608, history_max: 4000000 })",
        ),
        (
            "world --history-max=7 --table-max 5 --out-max 6",
            "World(LimitSettings { table_max: 5, out_max: 6, history_max: 7 })",
        ),
        (
            "storm --steps 8 --number 9",
            "Storm(StormSettings { number: 9, steps: 8 })",
        ),
        (
            "serve --port 7000",
            "Serve(ServeSettings { port: 7000, workers: 4, connections: 0, limits: \
             LimitSettings { table_max: 1000000, out_max: 8388608, history_max: 1 } })",
        ),
        (
            "script --connect a:b:7",
            "Script(ScriptSettings { connect: Connection { host: Text { string: \"a:b\" }, \
             port: 7 }, resp: Three, caching: Default, prefix: None, capacity: 1024, \
             noloop: false, redirect: false })",
        ),
        (
            "script --mode bcast --connect=h:1 --redirect --noloop --prefix p --resp 2 \
             --capacity=3",
            "Script(ScriptSettings { connect: Connection { host: Text { string: \"h\" }, \
             port: 1 }, resp: Two, caching: Bcast, prefix: Some(Text { string: \"p\" }), \
             capacity: 3, noloop: true, redirect: true })",
        ),
    ] {
        let words = words_of(alloc, line)?;
        let asked = read_words(alloc, words.as_slice())?;
        let printed = match asked {
            Some(asked) => format!(in alloc; "{asked:?}")?,
            None => String::new(alloc),
        };
        assert!(rt; printed.as_str() == wanted, "{line}: {printed}");
    }
    Ok(())
}

#[test]
fn what_is_wrong_is_said_of_the_first_wrong_word(rt: HostRuntime) -> Result<(), Fail> {
    let alloc = rt.alloc();
    for (line, wanted) in [
        ("", "no command is named"),
        ("worlds", "\"worlds\" is no command"),
        ("--help", "\"--help\" is no command"),
        ("storm --number 1", "--steps is missing"),
        ("script --noloop", "--connect is missing"),
        ("script --connect h:1 --resp 2", "--resp 2 needs --redirect"),
        (
            "script --connect h:1 --prefix a",
            "--prefix needs --mode bcast",
        ),
        (
            "script --connect h:1 --mode broadcast",
            "\"broadcast\" is no value of --mode, which takes default, optin, optout or bcast",
        ),
        ("serve --workers 5", "--port is missing"),
        ("script --capacity 5", "--connect is missing"),
        (
            "script --connect h",
            "\"h\" is no value of --connect, which takes HOST:PORT, with a port of 1 to 65535",
        ),
        (
            "world --table-mx 5",
            "\"--table-mx\" is no option of the command",
        ),
        ("world 5", "\"5\" is no option, and no value of one"),
        (
            "world --table-max 05",
            "\"05\" is no value of --table-max, which takes a number of 1 to 4000000000, \
             with no sign and no leading zero",
        ),
        (
            "serve --port 1 --table-max 0",
            "\"0\" is no value of --table-max, which takes a number of 1 to 4000000000, \
             with no sign and no leading zero",
        ),
        (
            "world --out-max 05",
            "\"05\" is no value of --out-max, which takes a number of 1 to 4000000000, \
             with no sign and no leading zero",
        ),
        (
            "world --history-max 05",
            "\"05\" is no value of --history-max, which takes a number of 1 to 4000000000, \
             with no sign and no leading zero",
        ),
        (
            "world --history-max 5 --history-max=5",
            "--history-max is written twice",
        ),
        (
            "world --history-max -5",
            "--history-max has no value; one that begins with `-` is written --history-max=VALUE",
        ),
    ] {
        let words = words_of(alloc, line)?;
        let told = match find_wrong(words.as_slice()) {
            Some(wrong) => format!(in alloc; "{wrong}")?,
            None => String::new(alloc),
        };
        assert!(rt; told.as_str() == wanted, "{line}: {told}");
        assert!(rt; read_words(alloc, words.as_slice())?.is_none(), "{line}");
    }
    Ok(())
}
