//! Sources and the words that they give, as another program computed them that was written separately.

use crate::derive::{fields, spaced};
use lis_csource::source_props;
use lis_model::derived::Derived;
use std::alloc::{AllocError, Global};
use std::test::Fail;

fn words_of(alloc: Global, source: &[u8]) -> Result<Vec<u8>, AllocError> {
    let mut out = Derived::new();
    source_props(source, &mut out);
    spaced(alloc, out.as_slice())
}

/// Each source after a `|`, and its words after a `$`.
fn sources() -> &'static [u8] {
    b"\
|/* #include \"no.h\" */\n#include <stdio.h>\n#include \"sub/list.h\"\nstatic const char *s = \"{\";\nint main(void) {\n  puts(s);\n}\n$includes:stdio.h includes:list.h defines:main\
|int f(int (*g)(void)) { return h(1) ; }$defines:f\
|if (x) {$\
|# /* */ include \"a/b.h$\
|$\
|)$\
|'\\\\'$\
|\\\\\n\n$\
|) g(){}\n$defines:g\
|f(){g();}\n$defines:f\
|else(x){}\n$defines:else\
|f(a)(b){}\n$\
|\"\\\" f(){}\n$\
|\"\\\\\" f(){}\n$defines:f\
|'\\'' g(){}\n$defines:g\
|#include \"\"\n$includes:\
|\"open\nf(){}\n$defines:f\
|/* \" */ g(){}\n$defines:g\
|#define f(x) {\n$\
|#include <sys/>\n$includes:\
|#include\x0b<no.h>\n$\
|/***/g(){}/****/\n$defines:g\
|\x0c#include <ff.h>\n$includes:ff.h\
|x #include <no.h>\n$\
|##include <no.h>\r\n$\
|  #\tinclude\t<t.h>\n$includes:t.h\
|\n# include \"a b.h\"\n{\n$\
|\"s\" #include <no2.h>\n$\
|f(int x)\r\nint y;\r\n{}\r\n$\
|/* /* */ h_1(){} /* */\n$defines:h_1\
|\n#\n\\\\\n\n#inc\\\nlude <j.h>\n$includes:j.h\
|struct s { int f(){} };\n$\
|/\\\r\n/ joined\\\n line\n}\n{\n$\
|#\n#include <n.h>\n'\ng(){}\n$includes:n.h defines:g\
|main/* a\nb */(//\\\n)\\\n{}''$\
|f() g(){}\nf(){} }\n[f(]){}\n$defines:g defines:f\
|\\\\\n\n#\\\ninclude\\\n<a/b/c.h>\n$includes:c.h\
|/*/ g(){} */ f(){}\n(f(){})\n$defines:f\
|\"\\\\\" f(){}\r\n\"/*\" f(){} \"*/\"\r\n$defines:f\
|// ' \" /*\nf(){}\n'\"' f(){} '\"'\n$defines:f\
|\n# /* c */ include /* c */ \".\"\n$includes:.\
|(*fp)(void) {}\n#inc\\\nlude <j.h>\n$includes:j.h\
|g(')') {}\nstruct s { int f(){} };\n$defines:g\
|f\n#define X\n(void)\n#undef X\n{}\n\\\\\n\n$defines:f\
|/* c */ #include <yes.h>\r\n1_.h(){}\r\n$includes:yes.h\
|/\\\n* joined */\n#include\\\r\n\"sub/list.h\"\n$includes:list.h\
|g(')') {}\n# include \"a/b/y.h\" /* z\n */\n$defines:g includes:y.h\
|\"f(){\"f(a)(b){}\r\nreturn\\\r\r\n(\r) /* c */ {}$\
|\"\\\"\"1.f(){}\"//\n\n#include <z*/.h>\nint f(){}\n$includes:.h defines:f\
|\"open\nf(){}\nelse(x){}\n\"\\\\\" f(){}\n/**/f(){}\n$defines:f defines:else\
|/* //*/#inc\\\nlude <j.h>\n\\\\\n\n\n#include \"//q.h\"\n$includes:j.h includes:q.h\
|f(int x)\nint y;\n{}\nx.f(){\n#/* a\nb */include\t\"w>x\" /*$defines:f\
|\n#include </*x.h>\nint f(){}\n/* a\n b */ # include \"m.h\"\n$defines:f includes:m.h\
|f(){}0;\nf(){}1;\n#include <p2.h>\n#include <p3.h>\nint p4(void) {}\nint p5(void) {}\nint p6(void) {}\n#include <p7.h>\nint p8(void) {}\nint p9(void) {}\nint p10(void) {}\nint p11(void) {}\nf(){}12;\nint p13(void) {}\nint p14(void) {}\nf(){}15;\nint p16(void) {}\nint p17(void) {}\n#include <p18.h>\n#include <p19.h>\nint p20(void) {}\n#include <p21.h>\n#include <p22.h>\n#include <p23.h>\n#include <p24.h>\nint p25(void) {}\nint p26(void) {}\nint p27(void) {}\n#include <p28.h>\n#include <p29.h>\nint p30(void) {}\nint p31(void) {}\n#include <p32.h>\nint p33(void) {}\nf(){}34;\n#include <p35.h>\nint p36(void) {}\nf(){}37;\nint p38(void) {}\nint p39(void) {}\n#include <p40.h>\n#include <p41.h>\n#include <p42.h>\nf(){}43;\n#include <p44.h>\nint p45(void) {}\n#include <p46.h>\n#include <p47.h>\n#include <p48.h>\n#include <p49.h>\nint p50(void) {}\n#include <p51.h>\n#include <p52.h>\n#include <p53.h>\n#include <p54.h>\nf(){}55;\n#include <p56.h>\n#include <p57.h>\nint p58(void) {}\nint p59(void) {}\n$defines:f includes:p2.h includes:p3.h defines:p4 defines:p5 defines:p6 includes:p7.h defines:p8 defines:p9 defines:p10 defines:p11 defines:p13 defines:p14 defines:p16 defines:p17 includes:p18.h includes:p19.h defines:p20 includes:p21.h includes:p22.h includes:p23.h includes:p24.h defines:p25 defines:p26 defines:p27 includes:p28.h includes:p29.h defines:p30 defines:p31 includes:p32.h defines:p33 includes:p35.h defines:p36 defines:p38 defines:p39 includes:p40.h includes:p41.h includes:p42.h includes:p44.h defines:p45 includes:p46.h includes:p47.h includes:p48.h includes:p49.h defines:p50 includes:p51.h includes:p52.h includes:p53.h\
"
}

#[test]
fn words_of_sources(rt: HostRuntime) -> Result<(), Fail> {
    for row in sources().split(|byte| *byte == b'|').skip(1) {
        let (source, words) = fields(row)?;
        let found = words_of(rt.alloc(), source)?;
        assert!(rt; found.as_slice() == words, "{words:?}");
    }
    Ok(())
}
