//! A law on mails, the contract of an empty function.

ghost use Rattle.lis_mail.specs.Header.{WordsAreOfHeader};

/// The words of a mail are those of its header: a prefix that has the header's end gives all of them.
pub fn words_are_of_header()
    ensures { WordsAreOfHeader }
{}
