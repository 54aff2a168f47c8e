//! Mails and the words that they give, as another program computed them that was written separately.

use crate::derive::{fields, spaced};
use lis_mail::mail_props;
use lis_model::derived::Derived;
use std::alloc::{AllocError, Global};
use std::test::Fail;

fn words_of(alloc: Global, mail: &[u8]) -> Result<Vec<u8>, AllocError> {
    let mut out = Derived::new();
    mail_props(mail, &mut out);
    spaced(alloc, out.as_slice())
}

/// Each mail after a `|`, and its words after a `$`.
fn mails() -> &'static [u8] {
    b"\
|From: Alice <alice@example.org>\nTo: bob@example.org,\n Carol <carol@example.org>\nSubject: Re: Lunch plan\n\nSee you.\n$from:alice@example.org to:bob@example.org to:carol@example.org subject:re subject:lunch subject:plan\
|To : a@b\nTO: C@d\r\n e\n$to:c@d\
|$\
|\r\nTO:$\
|To: \r\nSubject\r: .$\
|From  : :  @  Re:$\
|TO : -\r\n A.B+c_d-e@F$\
|From:A.B+c_d-e@F B@X$from:a.b+c_d-e@f from:b@x\
|T\xc3o: \0  =?utf-8?q?x?=\n$\
|Fro\x7fm::\r\nSubject\r: \xe9@x,Re:$\
|Fro\x7fm : a,b@c;d,A.B+c_d-e@F\n$\
| first fold@line\n! : B@X,\"q r\"\n$\
|X-To: 1,alice@example.org,.\r\n  \r\n$\
|From :A.B+c_d-e@F a,b@c;d a@b@c\r\n$\
|\tx@y\nSubject:\tB@X\nDate : a,b@c;d,-,-\n$subject:b@x\
|\r\nTO: .\n\nSubject: body words\nTo: body@x$\
|From :  \n\nSubject: body words\nTo: body@x$\
|To:\tLunch\n\nSubject: body words\nTo: body@x$\
|from:\t\r\n\r\nSubject: body words\r\nTo: body@x$\
|X-To:\t\r\nTO : \r\nfrom:a@b@c A.B+c_d-e@F \xe9@x$from:a@b@c from:a.b+c_d-e@f from:@x\
|!:a,b@c;d\nDate: plan B@X alice@example.org$\
|from: 1 \xe9@x\n\nSubject: body words\nTo: body@x$from:@x\
|From:\t@,a@b@c,<c@d>,plan\r\n:x@y\r\n kept@fold $from:@ from:a@b@c from:c@d\
|From: Lunch  \xe9@x  1\nFrom:\t<c@d>  =?utf-8?q?x?=$from:@x from:c@d\
|Subject:B@X alice@example.org\r\nSubject: \r\n : Lunch  plan$subject:b@x subject:alice@example.org subject:lunch subject:plan\
|Cc:\t\nTO: a,b@c;d  <c@d>  @\n\nSubject: body words\nTo: body@x$to:b@c to:c@d to:@\
|Subject::zzzzzzzzzzzzzzzzzzzzzzzzzzzzzzzzzzzzzzzzzzzzzzzzzzzzz\n$\
|TO:a@b  :\n\t\nSubject\r:@,A.B+c_d-e@F\n\nSubject: body words\nTo: body@x$to:a@b\
|T\xc3o:\tRe:\r\nsUbJeCt : :  \xe9@x  @  <c@d>\n\nSubject: body words\nTo: body@x$\
|Subject:: \"q r\",a,b@c;d,-\r\nFrom:  \r\n\r\nSubject: body words\r\nTo: body@x$subject:q subject:r subject:a subject:b@c subject:d subject:-\
|To:  plan,alice@example.org,plan\n  \n\t-\n\nSubject: body words\nTo: body@x$to:alice@example.org\
|!:\n\t\n lost fold@x\nTO:\t-  :  B@X  \"q r\"\n\nSubject: body words\nTo: body@x$to:b@x\
|TO:  \r\n\talice@example.org\r\n \"q r\" \xe9@x\r\n\r\nSubject: body words\r\nTo: body@x$to:alice@example.org to:@x\
|:  =?utf-8?q?x?=\nTo:\t=?utf-8?q?x?= \xe9@x\n\r\n\nSubject: body words\nTo: body@x$to:@x\
|Subject:: a,b@c;d\n  B@X a,b@c;d\nTo\t:  B@X\n\nSubject: body words\nTo: body@x$subject:a subject:b@c subject:d subject:b@x\
|\r\nSubject:  t@uuuuuuuuuuuuuuuuuuuuuuuuuuuuuuuuuuuuuuuuuuuuuuuuuuuuu,\"q r\"$\
|from:A.B+c_d-e@F . =?utf-8?q?x?= -\r\nFrom :\"q r\" B@X\r\n\t=?utf-8?q?x?=\r\n:  a@b$from:a.b+c_d-e@f\
|TO:<c@d>\r\nTO: @ a,b@c;d <c@d>\nSubject: : plan\n\nSubject: body words\nTo: body@x$to:c@d to:@ to:b@c subject:plan\
|To\t:  \r\nSubject::\t.  plan  \xe9@x  B@X\r\n\t\r\n!: \r\n\r\nSubject: body words\r\nTo: body@x$subject:. subject:plan subject:@x subject:b@x\
|From: \r\n \0,\0,t@uuuuuuuuuuuuuuuuuuuuuuuuuuuuuuuuuuuuuuuuuuuuuuuuuuuuu,A.B+c_d-e@F$from:t@uuuuuuuuuuuuuuuuuuuuuuuuuuuuuuuuuuuuuuuuuuuuuuuuuuuuu from:a.b+c_d-e@f\
|From: wwwwwwwwwwwwwwwwwwwwwwwwwwwwwwwwwwwwwwwwwwwwwwwwwwww a@b \0\r\nFro\x7fm:  <c@d>\r\n$from:a@b\
|To:\t\n\t@,\"q r\",f@uuuuuuuuuuuuuuuuuuuuuuuuuuuuuuuuuuuuuuuuuuuuuuuuuuuuuu,:\n : plan \0$to:@ to:f@uuuuuuuuuuuuuuuuuuuuuuuuuuuuuuuuuuuuuuuuuuuuuuuuuuuuuu\
|Cc:\tf@uuuuuuuuuuuuuuuuuuuuuuuuuuuuuuuuuuuuuuuuuuuuuuuuuuuuuu\r\n\r\nSubject: body words\r\nTo: body@x$\
|sUbJeCt: a@b  wwwwwwwwwwwwwwwwwwwwwwwwwwwwwwwwwwwwwwwwwwwwwwwwwwww  <c@d>\n\nSubject: body words\nTo: body@x$subject:a@b subject:wwwwwwwwwwwwwwwwwwwwwwwwwwwwwwwwwwwwwwwwwwwwwwwwwwww subject:c@d\
|Cc : -\nSubject::  x@yyyyyyyyyyyyyyyyyyyyyyyyyyyyyyyyyyyyyyyyyyyyyyyyyyyyyyy Re:\n\nSubject: body words\nTo: body@x$subject:re\
|To\t: \xe9@x\n\t\nfrom:\tf@uuuuuuuuuuuuuuuuuuuuuuuuuuuuuuuuuuuuuuuuuuuuuuuuuuuuuu Re:\n lost fold@x\n\nSubject: body words\nTo: body@x$from:fold@x\
|!:plan  plan  @  :\r\n  .\r\nfrom:  Re: f@uuuuuuuuuuuuuuuuuuuuuuuuuuuuuuuuuuuuuuuuuuuuuuuuuuuuuu\r\n\t=?utf-8?q?x?= a,b@c;d alice@example.org\r\n  @  \xe9@x\r\n$from:b@c from:alice@example.org from:@ from:@x\
|Subject::  -\n\t\n  =?utf-8?q?x?= <c@d> a@b -\na b: c@d\nX-To:  alice@example.org\n zzzzzzzzzzzzzzzzzzzzzzzzzzzzzzzzzzzzzzzzzzzzzzzzzzzzz\n\nSubject: body words\nTo: body@x$subject:- subject:utf-8 subject:q subject:x subject:c@d subject:a@b\
|To\t:\t\r\nSubject\r: t@uuuuuuuuuuuuuuuuuuuuuuuuuuuuuuuuuuuuuuuuuuuuuuuuuuuuu <c@d>\r\nSubject::  \r\n:\r\nTo:B@X  \xe9@x  Lunch  =?utf-8?q?x?=\r\nT\xc3o:Re:  1\r\n\r\r\nSubject\r: .\r\nTo : $to:b@x to:@x\
|Subject: w0 w0 w0 w1 w2 w3 w4 w5 w6 w7 w8 w9 w10 w11 w12 w13 w14 w15 w16 w17 w18 w19 w20 w21 w22 w23 w24 w25 w26 w27 w28 w29 w30 w31 w32 w33 w34 w35 w36 w37 w38 w39 w40 w41 w42 w43 w44 w45 w46\nTo: yyyyyyyyyyyyyyyyyyyyyyyyyyyyyyyyyyyyyyyyyyyyyyyyyyyyyyyy@x, a@b, c@d\n$subject:w0 subject:w1 subject:w2 subject:w3 subject:w4 subject:w5 subject:w6 subject:w7 subject:w8 subject:w9 subject:w10 subject:w11 subject:w12 subject:w13 subject:w14 subject:w15 subject:w16 subject:w17 subject:w18 subject:w19 subject:w20 subject:w21 subject:w22 subject:w23 subject:w24 subject:w25 subject:w26 subject:w27 subject:w28 subject:w29 subject:w30 subject:w31 subject:w32 subject:w33 subject:w34 subject:w35 subject:w36 subject:w37 subject:w38 subject:w39 subject:w40 subject:w41 subject:w42 subject:w43 subject:w44 subject:w45 subject:w46 to:a@b\
"
}

#[test]
fn words_of_mails(rt: HostRuntime) -> Result<(), Fail> {
    for row in mails().split(|byte| *byte == b'|').skip(1) {
        let (mail, words) = fields(row)?;
        let found = words_of(rt.alloc(), mail)?;
        assert!(rt; found.as_slice() == words, "{words:?}");
    }
    Ok(())
}
