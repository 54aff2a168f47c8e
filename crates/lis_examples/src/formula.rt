//! Formula texts and their results. The grammar gives them by generating formula texts, and not by reading them.

use lis_formula::{FormulaFault, print, read_formula, resolve};
use lis_place::Place;

/// Every formula of at most three bytes over the word `a`, the signs and the parentheses: the text, whether it is rooted,
/// and how its place prints. A run of `a` is one word.
fn formulas() -> &'static [(&'static str, bool, &'static str)] {
    &[
        ("a", false, "a"),
        ("/", true, "/"),
        ("aa", false, "aa"),
        ("!a", false, "!a"),
        ("/a", true, "a"),
        ("aaa", false, "aaa"),
        ("a/a", false, "a/a"),
        ("a|a", false, "(a|a)"),
        ("!aa", false, "!aa"),
        ("!!a", false, "!!a"),
        ("/aa", true, "aa"),
        ("/!a", true, "!a"),
        ("(a)", false, "a"),
    ]
}

/// All other texts of one to three bytes over the same signs, by the length of their longest prefix that begins a formula.
fn broken_texts() -> &'static [(u32, &'static str)] {
    &[
        (
            0,
            "| ) |a |! |/ || |( |) )a )! )/ )| )( )) |aa |a! |a/ |a| |a( |a) |!a |!! |!/ |!| |!( |!) |/a |/!",
        ),
        (
            0,
            "|// |/| |/( |/) ||a ||! ||/ ||| ||( ||) |(a |(! |(/ |(| |(( |() |)a |)! |)/ |)| |)( |)) )aa )a!",
        ),
        (
            0,
            ")a/ )a| )a( )a) )!a )!! )!/ )!| )!( )!) )/a )/! )// )/| )/( )/) )|a )|! )|/ )|| )|( )|) )(a )(!",
        ),
        (0, ")(/ )(| )(( )() ))a ))! ))/ ))| ))( )))"),
        (
            1,
            "! ( a! a( a) !/ !| !) // /| /) (/ (| () a!a a!! a!/ a!| a!( a!) a(a a(! a(/ a(| a(( a() a)a a)!",
        ),
        (
            1,
            "a)/ a)| a)( a)) !/a !/! !// !/| !/( !/) !|a !|! !|/ !|| !|( !|) !)a !)! !)/ !)| !)( !)) //a //!",
        ),
        (
            1,
            "/// //| //( //) /|a /|! /|/ /|| /|( /|) /)a /)! /)/ /)| /)( /)) (/a (/! (// (/| (/( (/) (|a (|!",
        ),
        (1, "(|/ (|| (|( (|) ()a ()! ()/ ()| ()( ())"),
        (
            2,
            "a/ a| !! !( /! /( (a (! (( aa! aa( aa) a// a/| a/) a|/ a|| a|) !a! !a( !a) !!/ !!| !!) !(/ !(|",
        ),
        (
            2,
            "!() /a! /a( /a) /!/ /!| /!) /(/ /(| /() (a! (a( (!/ (!| (!) ((/ ((| (()",
        ),
        (
            3,
            "aa/ aa| a/! a/( a|! a|( !a/ !a| !!! !!( !(a !(! !(( /a/ /a| /!! /!( /(a /(! /(( (aa (a/ (a| (!a",
        ),
        (3, "(!! (!( ((a ((! ((("),
    ]
}

/// Longer formulas.
fn longer_formulas() -> &'static [(&'static str, bool, &'static str)] {
    &[
        ("a|b/c", false, "(a|b)/c"),
        ("a|b|c", false, "((a|b)|c)"),
        ("(a/b/c)", false, "((a/b)/c)"),
        ("a/(b/c)", false, "a/(b/c)"),
        ("!a|b", false, "(!a|b)"),
        ("!(a|b)/c", false, "!(a|b)/c"),
        ("((a))", false, "a"),
        ("/!(a/b)|size>=007", true, "(!(a/b)|size>=7)"),
        ("size/size<000/size:small", false, "size/size<0/size:small"),
        ("size>=999999999999", false, "size>=999999999999"),
        ("year:|year:2003", false, "(year:|year:2003)"),
        ("_.-+@/x", false, "_.-+@/x"),
    ]
}

/// Broken texts, with the length of their longest prefix that begins a formula.
fn more_broken_texts() -> &'static [(u32, &'static str)] {
    &[
        (0, ".."),
        (0, "../a"),
        (1, "/.."),
        (2, "a/.."),
        (0, ".a"),
        (2, "a/"),
        (2, "(a"),
        (3, "(a))"),
        (5, "size>"),
        (6, "size>="),
        (7, "size>=1a"),
        (5, "size<"),
        (5, "xsize>=5"),
        (8, "(a|size>b"),
        (17, "size<0000000000001"),
        (1, "a b"),
        (0, ":a"),
        (3, "a:b:"),
        (1, "a(b)"),
        (2, "a|/b"),
        (
            60,
            "aaaaaaaaaaaaaaaaaaaaaaaaaaaaaaaaaaaaaaaaaaaaaaaaaaaaaaaaaaaaa",
        ),
    ]
}

/// A place, a text, and the place that it leads to.
fn leads() -> &'static [(&'static str, &'static str, &'static str)] {
    &[
        ("/", "..", "/"),
        ("a", "..", "/"),
        ("a/b", "..", "a"),
        ("(a/b)", "..", "/"),
        ("a|b/c/!d", "..", "(a|b)/c"),
        ("a", "b/c", "a/b/c"),
        ("a", "(b/c)", "a/(b/c)"),
        ("a/b", "/c|d", "(c|d)"),
        ("a", "/", "/"),
    ]
}

fn reads_to(text: &str, rooted: bool, printed: &str) -> bool {
    match read_formula(text.as_bytes()) {
        Ok(path) => path.rooted == rooted && print(&path.place).bytes() == printed.as_bytes(),
        Err(_) => false,
    }
}

fn breaks_at(text: &[u8], at: u32) -> bool {
    matches!(read_formula(text), Err(FormulaFault::Syntax(found)) if found == at)
}

fn is_too_large(text: &[u8]) -> bool {
    matches!(read_formula(text), Err(FormulaFault::TooLarge))
}

fn leads_to(from: &str, text: &str, to: &str) -> bool {
    let Ok(path) = read_formula(from.as_bytes()) else {
        return false;
    };
    match resolve(&path.place, text.as_bytes()) {
        Ok(place) => print(&place).bytes() == to.as_bytes(),
        Err(_) => false,
    }
}

#[test]
fn formulas_read_as_the_grammar_says(rt: HostRuntime) {
    for (text, rooted, printed) in formulas() {
        assert!(rt; reads_to(text, *rooted, printed), "{text}");
    }
    for (text, rooted, printed) in longer_formulas() {
        assert!(rt; reads_to(text, *rooted, printed), "{text}");
    }
}

#[test]
fn broken_texts_break_where_the_grammar_says(rt: HostRuntime) {
    assert!(rt; breaks_at(b"", 0));
    for (at, texts) in broken_texts() {
        for text in texts.split(' ') {
            assert!(rt; breaks_at(text.as_bytes(), *at), "{text}");
        }
    }
    for (at, text) in more_broken_texts() {
        assert!(rt; breaks_at(text.as_bytes(), *at), "{text}");
    }
}

#[test]
fn limits_come_after_syntax_and_long_texts_before(rt: HostRuntime) {
    assert!(rt; is_too_large(&[b'/'; 1025]));
    assert!(rt; breaks_at(&[b'!'; 1024], 1024));
    let mut marks = [b'!'; 66];
    marks[65] = b'a';
    assert!(rt; is_too_large(&marks));
    assert!(rt; read_formula(&marks[2..]).is_ok());
    marks[65] = b'/';
    assert!(rt; breaks_at(&marks, 65));
}

#[test]
fn places_lead_to_places(rt: HostRuntime) {
    for (from, text, to) in leads() {
        assert!(rt; leads_to(from, text, to), "{from} {text}");
    }
    let root = Place::root();
    assert!(rt; matches!(resolve(&root, b"../a"), Err(FormulaFault::Syntax(0))));
    assert!(rt; matches!(resolve(&root, &[b'.'; 1025]), Err(FormulaFault::TooLarge)));
}
