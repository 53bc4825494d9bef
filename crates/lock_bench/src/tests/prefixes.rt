//! A table against worked examples.
use prefix_table::PrefixTable;
use resp_value::{Octets, Words};
use std::alloc::Global;
use std::test::Fail;

// The prefixes that a key starts with, each with its connections, as one line.
fn line_of(table: &PrefixTable, alloc: Global, key: &str) -> Result<Vec<u8>, Fail> {
    let mut line = Vec::new(alloc);
    let mut places = Vec::new(alloc);
    table.matching(key.as_bytes(), &mut places)?;
    for place in places.iter() {
        if let Some((prefix, ids)) = table.at(*place) {
            line.extend_from_slice(b"[")?;
            line.extend_from_slice(prefix)?;
            for id in ids.iter() {
                line.extend_from_slice(format!(in alloc; " {id}")?.as_bytes())?;
            }
            line.extend_from_slice(b"]")?;
        }
    }
    Ok(line)
}

fn prefixes(alloc: Global) -> Result<PrefixTable, Fail> {
    let mut table = PrefixTable::new(alloc);
    for line in "9 foo\n3 b\n7 \n9 foobar\n2 foo\n3 fo\n9 foo\n3 g".split('\n') {
        if let Some((id, prefix)) = line.split_once(" ") {
            if let Ok(id) = id.parse() {
                table.add(id, prefix.as_bytes())?;
            }
        }
    }
    Ok(table)
}

// Keys, and the prefixes that they start with, in byte order.
const MATCHING: &str = "\
foobar: [ 7][fo 3][foo 2 9][foobar 9]
foo: [ 7][fo 3][foo 2 9]
fo: [ 7][fo 3]
f: [ 7]
: [ 7]
bar: [ 7][b 3]
h: [ 7]";

#[test]
fn prefixes_come_in_byte_order_and_connections_ascend(rt: HostRuntime) -> Result<(), Fail> {
    let table = prefixes(rt.alloc())?;
    for row in MATCHING.split('\n') {
        if let Some((key, wanted)) = row.split_once(": ") {
            let line = line_of(&table, rt.alloc(), key)?;
            assert_eq!(rt; line.as_slice(), wanted.as_bytes(), "{key}");
        }
    }
    Ok(())
}

// The same keys, once connection 9 is gone.
const WITHOUT_NINE: &str = "\
foobar: [ 7][fo 3][foo 2]
foo: [ 7][fo 3][foo 2]
bar: [ 7][b 3]";

#[test]
fn a_prefix_goes_with_its_last_connection(rt: HostRuntime) -> Result<(), Fail> {
    let mut table = prefixes(rt.alloc())?;
    table.remove_connection(9);
    table.remove_connection(8);
    for row in WITHOUT_NINE.split('\n') {
        if let Some((key, wanted)) = row.split_once(": ") {
            let line = line_of(&table, rt.alloc(), key)?;
            assert_eq!(rt; line.as_slice(), wanted.as_bytes(), "{key}");
        }
    }
    assert_eq!(rt; table.at(4).is_some(), true);
    assert_eq!(rt; table.at(5).is_none(), true);
    Ok(())
}

#[test]
fn places_go_behind_what_is_there(rt: HostRuntime) -> Result<(), Fail> {
    let table = prefixes(rt.alloc())?;
    let mut places = Vec::new(rt.alloc());
    places.push(8)?;
    table.matching(b"b", &mut places)?;
    assert_eq!(rt; places.as_slice(), [8, 0, 1].as_slice());
    Ok(())
}

fn words_of(alloc: Global, text: &str) -> Result<Words, Fail> {
    let mut words = Words::new(alloc);
    for word in text.split(' ') {
        words.push(Octets::from_slice(alloc, word.as_bytes())?)?;
    }
    Ok(words)
}

#[test]
fn places_of_several_keys_are_in_order_and_each_once(rt: HostRuntime) -> Result<(), Fail> {
    let table = prefixes(rt.alloc())?;
    let keys = words_of(rt.alloc(), "foobar b fo b")?;
    let places = table.matching_any(keys.as_slice())?;
    assert_eq!(rt; places.as_slice(), [0, 1, 2, 3, 4].as_slice());
    let none = table.matching_any(&[])?;
    assert_eq!(rt; none.as_slice().is_empty(), true);
    Ok(())
}

#[test]
fn prefixes_are_registered_together(rt: HostRuntime) -> Result<(), Fail> {
    let mut table = prefixes(rt.alloc())?;
    let registered = words_of(rt.alloc(), "b foo foot fool foo")?;
    table.add_all(5, registered.as_slice())?;
    let line = line_of(&table, rt.alloc(), "foot")?;
    assert_eq!(rt;
        line.as_slice(),
        b"[ 7][fo 3][foo 2 5 9][foot 5]".as_slice()
    );
    let line = line_of(&table, rt.alloc(), "b")?;
    assert_eq!(rt; line.as_slice(), b"[ 7][b 3 5]".as_slice());
    Ok(())
}

// The same four prefixes in each order in which they can be registered; two quotes are the empty
// one.
const ORDERS: &str = "\
'' a ab b
'' a b ab
'' ab a b
'' ab b a
'' b a ab
'' b ab a
a '' ab b
a '' b ab
a ab '' b
a ab b ''
a b '' ab
a b ab ''
ab '' a b
ab '' b a
ab a '' b
ab a b ''
ab b '' a
ab b a ''
b '' a ab
b '' ab a
b a '' ab
b a ab ''
b ab '' a
b ab a ''";

fn of_words(alloc: Global, words: &str) -> Result<PrefixTable, Fail> {
    let mut table = PrefixTable::new(alloc);
    for word in words.split(' ') {
        let prefix = if word == "''" { "" } else { word };
        table.add(1, prefix.as_bytes())?;
    }
    Ok(table)
}

#[test]
fn a_table_is_the_same_whatever_the_order_of_registering(rt: HostRuntime) -> Result<(), Fail> {
    for words in ORDERS.split('\n') {
        let table = of_words(rt.alloc(), words)?;
        let line = line_of(&table, rt.alloc(), "ab")?;
        assert_eq!(rt; line.as_slice(), b"[ 1][a 1][ab 1]".as_slice(), "{words}");
        let line = line_of(&table, rt.alloc(), "b")?;
        assert_eq!(rt; line.as_slice(), b"[ 1][b 1]".as_slice(), "{words}");
    }
    Ok(())
}
