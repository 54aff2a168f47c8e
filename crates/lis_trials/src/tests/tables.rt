//! The rows. The expected results were worked out by hand from the rules of commands and listings. Long tables are results of functions: if
//! a loop goes through a static table, each step of its check holds all rows. The longest are one text each, with a row on each line, which
//! is checked sooner than tuples are.

use lis_model::spot::Spot;
use lis_open::OpenFault;
use lis_shell::status::Status;

/// Inputs of sessions, and what is shown. A line that begins with `# ` says what the rows after it are about.
pub fn sessions() -> &'static str {
    "\
mkdir music;create a;create b music;ls; => ok;ok;ok;d music;f a;ok;
 => 
create a;create b;ls; => ok;ok;f a;f b;ok;
# Blanks, tabs, carriage returns, empty lines, and a last line without a line feed.
mkdir a^;mkdir a; => ok;no 11 already declared;
mkdir a^^;mkdir a; => no 01 bad line;ok;
mkdir ^a;^; => no 01 bad line;
  mkdir ~ a~;~ls ; => ok;ok;
;;^; ~^;  ;mkdir a;; => ok;
mkdir a;mkdir a => ok;no 11 already declared;
mkdir a;mkdir a^ => ok;no 11 already declared;
mkdir a; ~ => ok;
# Lines in no form.
mkdir;mkdir a b;LS;lsx;l s;ls x;create; => no 01 bad line;no 01 bad line;no 01 bad line;no 01 bad line;no 01 bad line;no 01 bad line;no 01 bad line;
mkdir .a;mkdir a/b;create .;create ..;create .a;ls; => no 01 bad line;no 01 bad line;no 01 bad line;no 01 bad line;ok;f .a;ok;
mkdir 123456789012345678901234567890123456789012345678901234567890; => ok;
mkdir 1234567890123456789012345678901234567890123456789012345678901; => no 01 bad line;
# A refusal changes nothing, and the first one in the order of the command stands.
mkdir a;mkdir a;ls;create x a; => ok;no 11 already declared;ok;ok;
create x nosuch;ls;mkdir nosuch;create x nosuch; => no 06 unknown property;ok;ok;ok;
create x;create x nosuch;ls; => ok;no 09 name taken;f x;ok;
# A word that every file has and one that no file has are no increments; words and names come in the order of bytes.
mkdir all;mkdir none;create b all;create a all;ls; => ok;ok;ok;ok;f a;f b;ok;
mkdir b;mkdir B;mkdir a-;mkdir a;create y b;create x a;create z B;create w a-;create -;ls; => ok;ok;ok;ok;ok;ok;ok;ok;ok;d B;d a;d a-;d b;f -;ok;
# Places: words that are known, steps up and from the root, and texts that are no formulas.
pwd;cd a;mkdir a;cd a;pwd;cd ..;pwd;cd ..;cd a;cd /;pwd; => w /;ok;no 06 unknown property;ok;ok;w a;ok;ok;w /;ok;ok;ok;ok;w /;ok;
mkdir a;cd a/;cd (a;cd a|;cd a b;pwd a;cd size<1|a;cd size>=0000000000001;pwd; => ok;no 05 formula;no 05 formula;no 05 formula;no 01 bad line;no 01 bad line;ok;no 05 formula;w (size<1|a);ok;
mkdir a;mkdir b;mkdir c;cd a|b/c;pwd;cd ..;pwd;cd ..;cd ..;pwd; => ok;ok;ok;ok;w (a|b)/c;ok;ok;w (a|b);ok;ok;ok;w /;ok;
cd nosuch;pwd; => no 06 unknown property;w /;ok;
# Listings at places.
mkdir a;mkdir b;create x a;create y b;create z a b;cd a|b;ls;pwd;cd !a;ls;pwd; => ok;ok;ok;ok;ok;ok;d a;d b;ok;w (a|b);ok;ok;f y;ok;w (a|b)/!a;ok;
# A file is given the words of a place of words, and at another place there are no new files.
mkdir a;mkdir b;cd a;create x;create y b;ls;cd /;ls;cd a/b;ls; => ok;ok;ok;ok;ok;d b;f x;ok;ok;d b;f x;ok;ok;f y;ok;
mkdir a;cd !a;mkdir b;create x;cd /size<1;create x;cd /a/a;create x;pwd;ls; => ok;ok;no 08 not a place;no 08 not a place;ok;no 08 not a place;ok;ok;w a/a;ok;f x;ok;
create x ext:;create x size:0;create x nosuch:v;cd /size>=1;ls;cd /size<1;ls; => no 25 built-in attribute;no 25 built-in attribute;no 06 unknown property;ok;ok;ok;ok;
# Payloads: their ends, their sizes, and the forms of their lines.
add a 2;xyz;ls;add b 3;abc;cat b; => no 04 payload end;ok;ok;b 3;abc;ok;
add a 0000000000003;ls;add a 000000000003;xyz;cat a; => no 01 bad line;ok;ok;b 3;xyz;ok;
add . 1;x;pwd;write a 1;x;write a 1;xx;pwd;add a 65537; => no 01 bad line;w /;ok;no 10 no such file here;no 04 payload end;w /;ok;no 03 cut payload;
add a 4;a;b;;ls;cat a;add b 0 => ok;f a;ok;b 4;a;b;;ok;ok;
add a 3^;x;^;cat a;add b 1;x^;ls; => ok;b 3;x;^;ok;no 04 payload end;f a;ok;
add a 3;xyz => ok;
add a 1 w w w w w w w w w w w w w w w w w;x;add a 1 w .;x;add a 1 w;x; => no 18 too many assigned;no 01 bad line;no 06 unknown property;
# Files are shown and removed where they are, and a file that is gone gives back its name and its blocks.
mkdir m;cd m;add a 2;hi;cd /!m;cat a;rm a;cd /size>=2;cat a;rm a;rm a;add b 32768; => ok;ok;ok;ok;no 10 no such file here;no 10 no such file here;ok;b 2;hi;ok;ok;no 10 no such file here;no 03 cut payload;
# A word that entails another is hidden under it.
mkdir music;mkdir rock;axiom rock music;mkdir text;create s1 rock;create s2 music;create t text;ls;cd music;ls;cd /!music|rock;ls;axiom music rock;axiom rock music; => ok;ok;ok;ok;ok;ok;ok;d music;d text;ok;ok;d rock;f s2;ok;ok;d music;d text;ok;no 15 cycle;no 16 axiom there;
# What another chain entails stays.
mkdir top;mkdir l;mkdir r;mkdir bot;axiom l top;axiom r top;axiom bot l;axiom bot r;create x bot;create y;unaxiom bot l;ls;unaxiom bot r;ls; => ok;ok;ok;ok;ok;ok;ok;ok;ok;ok;ok;d top;f y;ok;ok;d bot;f y;ok;
mkdir a;mkdir b;mkdir c;axiom a b;axiom b c;create x a;create y;props x;unaxiom b c;props x;axiom c a;axiom b c;rmdir c;ls; => ok;ok;ok;ok;ok;ok;ok;p a;p b;p c;p size:;p size:empty;ok;ok;p a;p b;p size:;p size:empty;ok;ok;no 15 cycle;no 13 in use;d b;f y;ok;
mkdir size:;mkdir year:2003;mkdir a;mkdir a;rmdir z;axiom a z;unaxiom a a;axiom a a;create x;create x;cat y;cd a/;rmdir a;frob; => no 25 built-in attribute;no 14 not assignable;ok;no 11 already declared;no 12 not declared;no 06 unknown property;no 17 no such axiom;no 15 cycle;ok;no 09 name taken;no 10 no such file here;no 05 formula;ok;no 01 bad line;
# A valued word on the left, whose head is built in.
mkdir a;axiom from:me a;axiom a from:me;stat;unaxiom from:me a;stat;rmdir from:;rmdir from:me;rmdir a;stat; => ok;ok;no 14 not assignable;s files 0;s known 3;s axioms 1;s free 8;ok;ok;s files 0;s known 1;s axioms 0;s free 8;ok;no 25 built-in attribute;no 25 built-in attribute;ok;s files 0;s known 0;s axioms 0;s free 8;ok;
# A word that is declared at a place entails the words of the place.
mkdir music;cd music;mkdir jazz;create j jazz;cd /;create x;ls;rmdir jazz; => ok;ok;ok;ok;ok;ok;d music;f x;ok;no 13 in use;
mkdir a;mkdir k:;cd a;mkdir b;cd b/a;mkdir c;stat;cd k:;mkdir d;cd /a;create x c;props x;rm x;rmdir c; => ok;ok;ok;ok;ok;ok;s files 0;s known 4;s axioms 3;s free 8;ok;ok;no 08 not a place;ok;ok;p a;p b;p c;p size:;p size:empty;ok;ok;no 13 in use;
# Files get other bytes, words and names.
create a;write a 5;xyz => ok;no 03 cut payload;
mkdir t;add a 3 t;abc;write a 5;hello;cat a;write a 0;;cat a;cd t;ls;write b 0;;write a 65537; => ok;ok;ok;b 5;hello;ok;ok;b 0;;ok;ok;f a;ok;no 10 no such file here;no 03 cut payload;
mkdir a;mkdir b;cd a;create x;mv x /b;ls;cd /b;ls;cd /a|b;create y;rename x x; => ok;ok;ok;ok;ok;ok;ok;f x;ok;ok;no 08 not a place;no 09 name taken;
mkdir a;mkdir b;create x a;create y;mv x a/;mv x a|b;mv x c;mv x size:;mv x from:me;mv z /;mv x ..;mv x b;props x;cd a;mv y /b;mv x /;props x; => ok;ok;ok;ok;no 05 formula;no 08 not a place;no 06 unknown property;no 25 built-in attribute;no 25 built-in attribute;no 10 no such file here;ok;ok;p a;p b;p size:;p size:empty;ok;ok;no 10 no such file here;ok;no 10 no such file here;
mkdir a;create x a;create y;rename x z;ls;cd a;ls;rename z z;rename z y;rename y w;rename z x;ls; => ok;ok;ok;ok;d a;f y;ok;ok;f z;ok;no 09 name taken;no 09 name taken;no 10 no such file here;ok;f x;ok;
# Words by name, size and content.
create a.b.Txt;create .a;create a.;props a.b.Txt;props .a;props a.;rename a.b.Txt b;props b;stat; => ok;ok;ok;p ext:;p ext:Txt;p size:;p size:empty;ok;p size:;p size:empty;ok;p size:;p size:empty;ok;ok;p size:;p size:empty;ok;s files 3;s known 2;s axioms 0;s free 8;ok;
add m.eml 21;To : a@b;TO: C@d^; e;;props m.eml;write m.eml 0;;props m.eml; => ok;p ext:;p ext:eml;p size:;p size:small;p to:;p to:c@d;ok;ok;p ext:;p ext:eml;p size:;p size:empty;ok;
mkdir source;axiom ext:c source;axiom defines: source;add x.c 35;int f(int (*g)(void)) { return 1} ;;props x.c;unaxiom ext:c source;props x.c;rename x.c x.t;props x.t; => ok;ok;ok;ok;p defines:;p defines:f;p ext:;p ext:c;p size:;p size:small;p source;ok;ok;p defines:;p defines:f;p ext:;p ext:c;p size:;p size:small;p source;ok;ok;p ext:;p ext:t;p size:;p size:small;ok;
# A mail, sources, and words by both. In a content `%` is a semicolon.
create m.eml;write m.eml 114;From: Alice <alice@example.org>;To: bob@example.org,; Carol <carol@example.org>;Subject: Re: Lunch plan;;See you.;;props m.eml; => ok;ok;p ext:;p ext:eml;p from:;p from:alice@example.org;p size:;p size:small;p subject:;p subject:lunch;p subject:plan;p subject:re;p to:;p to:bob@example.org;p to:carol@example.org;ok;
create x.c;write x.c 121;/* #include \"no.h\" */;#include <stdio.h>;#include \"sub/list.h\";static const char *s = \"{\"%;int main(void) {;  puts(s)%;};;props x.c; => ok;ok;p defines:;p defines:main;p ext:;p ext:c;p includes:;p includes:list.h;p includes:stdio.h;p size:;p size:small;ok;
mkdir work;mkdir project;axiom project work;add m.eml 114;From: Alice <alice@example.org>;To: bob@example.org,; Carol <carol@example.org>;Subject: Re: Lunch plan;;See you.;;add x.c 121 project;/* #include \"no.h\" */;#include <stdio.h>;#include \"sub/list.h\";static const char *s = \"{\"%;int main(void) {;  puts(s)%;};;create notes.txt work;ls;cd work;ls;way x.c; => ok;ok;ok;ok;ok;ok;d defines:;d ext:c;d ext:eml;d ext:txt;d from:;d includes:;d size:empty;d size:small;d subject:;d to:;d work;ok;ok;d defines:;d ext:c;d ext:txt;d includes:;d project;d size:empty;d size:small;ok;d defines:;ok;
add f.c 39;int f(int (*g)(void)) { return h(1) % };add g.c 8;if (x) {;add h.h 22;# /* */ include \"a/b.h;props f.c;props g.c;props h.h; => ok;ok;ok;p defines:;p defines:f;p ext:;p ext:c;p size:;p size:small;ok;p ext:;p ext:c;p size:;p size:small;ok;p ext:;p ext:h;p size:;p size:small;ok;
# Declared tests: files have them by their sizes, and they are given to none.
add f 3;xyz;create e;mkdir big;mkdir size<2;cd big;mkdir size>=2;cd size<2;mkdir a;cd /;ls;props f;write e 2;hi;props e;rmdir size<2;rmdir size>=2;unaxiom size>=2 big;rmdir size>=2;props f;axiom big size>=2;create g size>=2;stat; => ok;ok;ok;ok;ok;ok;ok;no 08 not a place;ok;d big;d size:empty;d size:small;d size<2;ok;p big;p size:;p size:small;p size>=2;ok;ok;p big;p size:;p size:small;p size>=2;ok;ok;no 13 in use;ok;ok;p size:;p size:small;ok;no 14 not assignable;no 14 not assignable;s files 2;s known 3;s axioms 0;s free 6;ok;
# Routes and counts.
mkdir p1;mkdir p2;mkdir p3;mkdir p4;axiom p2 p1;axiom p3 p2;axiom p4 p3;create a p1;create b p2;create c p3;create d p4;way d;way a;cd !p4;way d;way c; => ok;ok;ok;ok;ok;ok;ok;ok;ok;ok;ok;d p2;d p3;d p4;ok;ok;ok;no 10 no such file here;d p2;d p3;ok;
mkdir a;create x a;stat;add y 4097; => ok;ok;s files 1;s known 3;s axioms 0;s free 8;ok;no 03 cut payload;
"
}

/// The words, the files with their sizes, what follows them, and what is shown.
pub static LARGE_FILES: [(&[&str], &[(&str, usize)], &str, &str); 7] = [
    // Blocks are freed.
    (
        &["try", "64", "64", "1"],
        &[],
        "add a 1;x;add b 0;;add c 1;y;rm a;add c 1;z;cat c;",
        "ok;ok;no 24 no space;ok;ok;b 1;z;ok;",
    ),
    (
        &["try", "64", "64", "2"],
        &[],
        "add a 1;x;add b 1;y;add a 1;z;add c 1;z;rm b;create b;add c 1;z;ls;",
        "ok;ok;no 09 name taken;no 24 no space;ok;ok;ok;d size:empty;d size:small;ok;",
    ),
    (
        &["try", "64", "64", "16"],
        &[("a", 65_536), ("b", 65_537)],
        "ls;",
        "ok;no 20 file too large;f a;ok;",
    ),
    (
        &["try", "64", "64", "16"],
        &[("a", 32_768), ("b", 32_768)],
        "ls;",
        "ok;ok;f a;f b;ok;",
    ),
    (
        &["try", "64", "64", "16"],
        &[("a", 32_769), ("b", 32_768)],
        "ls;",
        "ok;no 24 no space;f a;ok;",
    ),
    (
        &["try", "64", "64", "1"],
        &[("a", 1), ("b", 0)],
        "ls;",
        "ok;ok;d size:empty;d size:small;ok;",
    ),
    // In version 2 larger files take one more block, and `write` can't use the old blocks.
    (
        &["try", "64", "64", "300", "v2"],
        &[
            ("big", 1_048_576),
            ("b2", 1_048_577),
            ("c", 176_128),
            ("c", 172_032),
        ],
        "stat;write c 1;x;",
        "ok;no 20 file too large;no 24 no space;ok;s files 2;s known 2;s axioms 0;s free 0;ok;no 24 no space;",
    ),
];

/// The same of version 3.
pub static V3_FILES: [(&[&str], &[(&str, usize)], &str, &str); 2] = [
    // A file may have as many bytes as all blocks. A larger file is refused as too large, even if there is no space for it.
    (
        &["try", "64", "64", "17", "v3"],
        &[("a", 69_633), ("b", 69_632), ("c", 65_536)],
        "stat;",
        "no 20 file too large;no 24 no space;ok;s files 1;s known 2;s axioms 0;s free 1;ok;",
    ),
    // Larger files take one more block for each 1,024 of theirs, and `write` can't use the old blocks.
    (
        &["try", "64", "64", "300", "v3"],
        &[("a", 65_537), ("big", 1_048_577), ("c", 94_208)],
        "stat;write c 1;x;rm a;write c 1;x;stat;",
        "ok;ok;ok;s files 3;s known 2;s axioms 0;s free 0;ok;no 24 no space;ok;ok;s files 2;s known 3;s axioms 0;s free 41;ok;",
    ),
];

/// How many bytes `a`, what follows them, and what is shown.
pub fn long_lines() -> &'static [(usize, &'static str, &'static str)] {
    &[
        (1_025, ";pwd;", "no 02 long line;w /;ok;"),
        (1_024, ";", "no 01 bad line;"),
        (1_024, "^;", "no 02 long line;"),
        (1_023, "^;", "no 01 bad line;"),
    ]
}

/// Words in no form, or with a number out of range; an empty line means no words.
pub fn wrong_words() -> &'static str {
    "\
try

try|64|64
try|63|64|8
try|96|64|8
try|32|64|8
try|8192|64|8
try|64|65|8
try|64|0|8
try|64|8256|8
try|64|64|0
try|64|64|32769
try|64|64|8|9
try|64|64|
try|64|64|+8
try|64|64 |8
try|64|64|0000000000008
try|64|64|4294967304
Try|64|64|8
|64|64|8
64|64|8
64|64|8|try
run
run|x|y
Run|x
make|x
make|64|64|8
make|x|64|65|8
make|x|64|64|8|9
try|x|64|64|8
try|64|64|8|V2
try|64|64|8|v1
try|v2|64|64|8
try|64|64|8|v2|v2
try|8192|64|8|v2
try|524288|64|8|v3
try|64|1048640|8|v3
try|64|64|16777217|v3
try|64|64|8|V3
try|64|64|8|v4
try|64|64|8|v3|v3
make|x|64|64|8|V2
make|x|64|64|8|v2|v2
make|x|64|64|8|v4
make|64|64|8|v2
make|x|63|64|8
make|x|64|64
upgrade
upgrade|x|y
Upgrade|x
rooms
rooms|x|y
room|x
dump
dump|x|y
dumps|x
view
view|x
view|x|a
view|x|a|f|g
view|x||f
view|x|.|f
view|x|a/b|f
views|x|a|f
put
put|x
put|x|a
put|x|a|f|g
put|x|..|f
put|x|a b|f
Put|x|a|f
grow
grow|x
grow|x|7|8
grow|x|
grow|x|-1
grow|x|2147483648
grows|x|7
"
}

/// Words of `try` in its form, also at both ends of each range.
pub fn right_words() -> &'static str {
    "\
try|64|64|1
try|128|192|32767
try|4096|8192|32768
try|0064|064|000000000008
try|64|64|8|v2
try|64|64|1|v3
try|8192|64|8|v3
try|262144|1048576|16777216|v3
"
}

/// The number of the failing call, what is shown at one byte a call, and how the session ends.
pub fn failing_shows() -> &'static [(u64, &'static str, Status)] {
    &[
        (1, "", Status::OUTPUT_FAULT),
        (2, "o", Status::OUTPUT_FAULT),
        (4, "ok;", Status::OUTPUT_FAULT),
        (9, "ok;ok;f ", Status::OUTPUT_FAULT),
        (17, "ok;ok;f a;f b;ok", Status::OUTPUT_FAULT),
        (18, "ok;ok;f a;f b;ok;", Status::DONE),
    ]
}

/// The limit, the bytes of a piece and the offset at which the source fails; a session that these cut off, what it shows and how it ends;
/// and another session on the state that the first one left.
pub type Cut = (
    u64,
    usize,
    Option<usize>,
    (&'static str, &'static str, Status),
    (&'static str, &'static str),
);

pub static CUT_SESSIONS: [Cut; 15] = [
    (
        99,
        8,
        Some(8),
        ("mkdir a;mkdir b;", "ok;", Status::INPUT_FAULT),
        ("mkdir b;mkdir a;", "ok;no 11 already declared;"),
    ),
    (
        99,
        8,
        Some(0),
        ("mkdir a;mkdir b;", "", Status::INPUT_FAULT),
        ("mkdir a;", "ok;"),
    ),
    (
        99,
        8,
        Some(16),
        ("mkdir a;mkdir b;", "ok;ok;", Status::INPUT_FAULT),
        ("mkdir b;", "no 11 already declared;"),
    ),
    (
        99,
        8,
        Some(9),
        ("mkdir a;mkdir b;", "ok;ok;", Status::DONE),
        ("mkdir b;", "no 11 already declared;"),
    ),
    // A line that is incomplete at the fault is not run.
    (
        99,
        1,
        Some(7),
        ("mkdir a;mkdir b;", "", Status::INPUT_FAULT),
        ("mkdir a;", "ok;"),
    ),
    (
        99,
        1,
        Some(15),
        ("mkdir a;mkdir b;", "ok;", Status::INPUT_FAULT),
        ("mkdir b;", "ok;"),
    ),
    (
        99,
        7,
        Some(7),
        ("mkdir a", "", Status::INPUT_FAULT),
        ("mkdir a;", "ok;"),
    ),
    // The input is one byte longer than its limit, or exactly as long.
    (
        10,
        7,
        None,
        ("mkdir abcd;", "", Status::INPUT_LIMIT),
        ("mkdir abcd;", "ok;"),
    ),
    (
        10,
        7,
        None,
        ("mkdir abc;", "ok;", Status::DONE),
        ("mkdir abc;", "no 11 already declared;"),
    ),
    (
        10,
        1,
        None,
        ("mkdir a;ls;", "ok;", Status::INPUT_LIMIT),
        ("mkdir a;", "no 11 already declared;"),
    ),
    (0, 7, None, (";", "", Status::INPUT_LIMIT), ("ls;", "ok;")),
    // A payload is whole with its line feed, within the limit and before a fault.
    (
        10,
        3,
        None,
        ("add a 1;x;ls", "ok;", Status::INPUT_LIMIT),
        ("cat a;", "b 1;x;ok;"),
    ),
    (
        9,
        3,
        None,
        ("add a 1;x;ls", "", Status::INPUT_LIMIT),
        ("cat a;", "no 10 no such file here;"),
    ),
    (
        99,
        3,
        Some(9),
        ("add a 1;x;ls;", "", Status::INPUT_FAULT),
        ("ls;", "ok;"),
    ),
    (
        99,
        10,
        Some(10),
        ("add a 1;x;ls;", "ok;", Status::INPUT_FAULT),
        ("cat a;", "b 1;x;ok;"),
    ),
];

/// The words that open an image, separated by `|`.
pub fn opening_words() -> &'static str {
    "\
run|i
rooms|i
dump|i
view|i|a|word:a
put|i|a|word:a
upgrade|i
grow|i|0
grow|i|7
grow|i|2147483647
"
}

/// How many bytes a disk of zeros has, and how each of these words ends over it.
pub static ZEROS: [(usize, Status); 3] = [
    (0, Status::Opening(OpenFault::TooShort(0, 4_096))),
    (100, Status::Opening(OpenFault::TooShort(100, 4_096))),
    (2_433_024, Status::Opening(OpenFault::Damaged(Spot::Super))),
];

/// A session that makes the file of `part_cases`, and what `cat` shows of it.
pub const NOTES: &str = "add notes.txt 25;alpha one;beta;;alpha two;";

pub const NOTES_LEFT: &str = "b 25;alpha one;beta;;alpha two;ok;";

/// Words on an image of `NOTES`, an input, what is shown, and what the file has afterwards if it was changed.
pub fn part_cases() -> &'static str {
    "\
view|i|notes.txt|word:alpha => ls; => +alpha one;@1 2;+alpha two;!;
view|i|notes.txt|/line:empty => ls; => @1 2;+;@2 1;!;
view|i|notes.txt|music => ls; => @1 4;!;
view|i|notes.txt| => ls; => no 05 formula;
view|i|none|.. => ls; => no 05 formula;
view|i|none|line: => ls; => no 10 no such file here;
put|i|notes.txt|word:alpha => +alpha 1;@1 2;+alpha 2;+end; => ok; => b 26;alpha 1;beta;;alpha 2;end;;ok;
put|i|notes.txt|word:alpha => +alpha one;@1 2;+alpha two;!; => ok;
put|i|notes.txt|word:alpha => +alpha one;@1 2;+alpha two;! => ok;
put|i|notes.txt|word:alpha => @1 2;+x => ok; => b 8;beta;;x;;ok;
put|i|notes.txt|word:alpha => +x; => no 27 marks;
put|i|notes.txt|word:alpha =>  => no 27 marks;
put|i|notes.txt|word:alpha => hello; => no 26 not a view;
put|i|notes.txt|word:alpha => @1 2^; => no 26 not a view;
put|i|none|word:alpha => +x; => no 10 no such file here;
put|i|none|(word:alpha => hello; => no 05 formula;
put|i|notes.txt|!line: => @1 4; => ok; => b 26;alpha one;beta;;alpha two;;ok;
"
}

/// Inputs at a limit of ten bytes: how the session ends, what it shows, and what the same input then shows in a run.
pub static LIMITED: [(&str, Status, &str, &str); 2] = [
    ("mkdir abcd;", Status::INPUT_LIMIT, "", "ok;"),
    ("mkdir abc;", Status::DONE, "ok;", "no 11 already declared;"),
];

/// Sessions on an empty image, and how many bits of its extension rows they edit: one bit for each word that a file gains or loses,
/// including its two words by size.
pub fn edit_counts() -> &'static [(&'static str, u64)] {
    &[
        ("mkdir a;mkdir b;", 0),
        ("mkdir a;mkdir b;create f a;", 3),
        ("mkdir a;mkdir k:;add f 1 a k:1;x;", 5),
        ("mkdir a;mkdir b;create f a b;rm f;", 8),
        ("mkdir a;create f a;create f a;create g b;rm g;", 3),
        // What a file has before and after stays. `size:small` gets the number that `size:empty` had, so no bit differs.
        (
            "mkdir a;create e;create f a;rm e;write f 1;x;rename f g;",
            7,
        ),
        // The first file keeps `size:empty`, so `size:small` of the second one gets another number.
        ("create e;create f;write f 1;x;", 6),
        ("mkdir a;mkdir b;create x a;cd a;mv x /b;", 5),
        // An axiom adds its word to each file that lacks it. Removing the axiom removes the word from each file that has it for no other
        // reason.
        (
            "mkdir a;mkdir b;mkdir c;create f a;create g a c;axiom a b;axiom c b;unaxiom a b;unaxiom c b;",
            11,
        ),
        // A declared test is added to the files that meet it, with the word of the place, and is removed only with its declaration.
        (
            "add f 3;xyz;create g;mkdir big;cd big;mkdir size>=2;cd /;rm g;unaxiom size>=2 big;rmdir size>=2;",
            10,
        ),
    ]
}

/// Commands that all get the reply `ok` alone, a session that looks at an image, and what that shows before the first command and after
/// each.
pub struct Script {
    pub row: &'static str,
    pub look: &'static str,
    /// One on each line.
    pub states: &'static str,
}

impl Script {
    /// What is shown after this many commands.
    pub fn state(&self, commands: usize) -> Option<&'static str> {
        self.states.split_terminator('\n').nth(commands)
    }
}

/// Ten commands, each of a different kind except the first two.
pub static KINDS: Script = Script {
    row: "mkdir music;mkdir rock;create s1 rock;add m 5 music;hello;axiom rock music;write m 2;hi;rename s1 s2.c;unaxiom rock music;mv s2.c /music;rm m;",
    look: "ls;stat;cat m;",
    states: "\
ok;s files 0;s known 0;s axioms 0;s free 8;ok;no 10 no such file here;
ok;s files 0;s known 1;s axioms 0;s free 8;ok;no 10 no such file here;
ok;s files 0;s known 2;s axioms 0;s free 8;ok;no 10 no such file here;
f s1;ok;s files 1;s known 4;s axioms 0;s free 8;ok;no 10 no such file here;
d music;d rock;d size:empty;d size:small;ok;s files 2;s known 5;s axioms 0;s free 7;ok;b 5;hello;ok;
d rock;d size:empty;d size:small;ok;s files 2;s known 5;s axioms 1;s free 7;ok;b 5;hello;ok;
d rock;d size:empty;d size:small;ok;s files 2;s known 5;s axioms 1;s free 7;ok;b 2;hi;ok;
d ext:;d rock;d size:empty;d size:small;ok;s files 2;s known 7;s axioms 1;s free 7;ok;b 2;hi;ok;
d ext:;d music;d rock;d size:empty;d size:small;ok;s files 2;s known 7;s axioms 0;s free 7;ok;b 2;hi;ok;
d ext:;d rock;d size:empty;d size:small;ok;s files 2;s known 7;s axioms 0;s free 7;ok;b 2;hi;ok;
f s2.c;ok;s files 1;s known 6;s axioms 0;s free 8;ok;no 10 no such file here;
",
};

/// Eight commands on one file and its words.
pub static ONE_FILE: Script = Script {
    row: "mkdir music;mkdir rock;axiom rock music;add s1 5 rock;hello;write s1 3;bye;mv s1 /music;unaxiom rock music;rm s1;",
    look: "stat;cat s1;unaxiom rock music;props s1;",
    states: "\
s files 0;s known 0;s axioms 0;s free 8;ok;no 10 no such file here;no 17 no such axiom;no 10 no such file here;
s files 0;s known 1;s axioms 0;s free 8;ok;no 10 no such file here;no 17 no such axiom;no 10 no such file here;
s files 0;s known 2;s axioms 0;s free 8;ok;no 10 no such file here;no 17 no such axiom;no 10 no such file here;
s files 0;s known 2;s axioms 1;s free 8;ok;no 10 no such file here;ok;no 10 no such file here;
s files 1;s known 4;s axioms 1;s free 7;ok;b 5;hello;ok;ok;p rock;p size:;p size:small;ok;
s files 1;s known 4;s axioms 1;s free 7;ok;b 3;bye;ok;ok;p rock;p size:;p size:small;ok;
s files 1;s known 4;s axioms 1;s free 7;ok;b 3;bye;ok;ok;p music;p rock;p size:;p size:small;ok;
s files 1;s known 4;s axioms 0;s free 7;ok;b 3;bye;ok;no 17 no such axiom;p music;p rock;p size:;p size:small;ok;
s files 0;s known 2;s axioms 0;s free 8;ok;no 10 no such file here;no 17 no such axiom;no 10 no such file here;
",
};

/// The axiom gives `music` to both files, so it is no increment any more. A file is listed if it has no increment.
pub static TWO_FILES: Script = Script {
    row: "mkdir music;mkdir rock;create s1 rock;create s2 music;axiom rock music;rename s2 s3.c;",
    look: "ls;",
    states: "\
ok;
ok;
ok;
f s1;ok;
d music;d rock;ok;
d rock;f s2;ok;
d ext:;d rock;ok;
",
};

/// Offsets at which the source of the commands on one file fails, at one byte a call, and how many of the commands are then run. At 22 and
/// 23 the second line is incomplete and complete, at 59 and 60 a payload, and at 113 the input is complete.
pub static FAILING_PLACES: [(usize, usize); 6] = [
    (0, 0),
    (22, 1),
    (23, 2),
    (59, 3),
    (60, 4),
    (113, 8),
];

/// A byte of the rows of an image in which file 0 has the words 0, 1 and 2, the value that it is changed to, and how a run then ends.
pub static ROWS: [(usize, u8, Status); 8] = [
    (0, 1, Status::DONE),
    (0, 0, Status::Opening(OpenFault::Damaged(Spot::Row(0)))),
    (0, 3, Status::Opening(OpenFault::Damaged(Spot::Row(0)))),
    (8, 0, Status::Opening(OpenFault::Damaged(Spot::Row(1)))),
    (24, 1, Status::Opening(OpenFault::Damaged(Spot::Row(3)))),
    (511, 128, Status::Opening(OpenFault::Damaged(Spot::Row(63)))),
    // After the last row.
    (512, 1, Status::Opening(OpenFault::Damaged(Spot::Row(64)))),
    (
        4_095,
        128,
        Status::Opening(OpenFault::Damaged(Spot::Row(64))),
    ),
];
