//! The lines of the session.

ghost use Rattle.std.specs.Prelude.{◌≡◌, ◌+◌, ◌<◌, ◌≤◌, ◌++◌, length, codes};
ghost use Rattle.lis_model.specs.Replies.{line};
ghost use Rattle.lis_grow.specs.Grow.{mkdir_line, axiom_line, file_words, create_line, add_lines, file_lines, rm_lines, last_lines, file_count};

use crate::piece::Piece;

pub fn mkdir_line(i: u32) -> Piece
    requires { i < 16 }
    ensures { result ≡ mkdir_line i }
{
    let mut piece = Piece::new();
    piece.put(b"mkdir g");
    piece.put_two(i);
    piece.put(b"\n");
    piece
}

pub fn year_line() -> Piece
    ensures { result ≡ line (codes "mkdir year:") }
{
    let mut piece = Piece::new();
    piece.put(b"mkdir year:\n");
    piece
}

pub fn axiom_line(i: u32) -> Piece
    requires { i < 16 }
    ensures { result ≡ axiom_line i }
{
    let mut piece = Piece::new();
    piece.put(b"axiom g");
    piece.put_two(i);
    piece.put(b" g");
    piece.put_two(i.saturating_sub(1) / 2);
    piece.put(b"\n");
    piece
}

/// Appends the words of a file, by a draw.
fn put_words(piece: &mut Piece, draw: u32)
    requires { length piece.old + 13 ≤ 80 }
    ensures bytes { piece.new ≡ piece.old ++ file_words draw }
    ensures longer { length piece.new ≡ length piece.old + 13 }
{
    piece.put(b"g");
    piece.put_two(draw % 16);
    piece.put(b" year:");
    piece.put_four(2_000 + draw / 16 % 20);
}

fn create_line(i: u32, draw: u32) -> Piece
    requires { i < file_count }
    ensures { result ≡ create_line i draw }
{
    let mut piece = Piece::new();
    piece.put(b"create f");
    piece.put_four(i);
    piece.put(b".txt ");
    put_words(&mut piece, draw);
    piece.put(b"\n");
    piece
}

fn add_lines(i: u32, draw: u32) -> Piece
    requires { i < file_count }
    ensures { result ≡ add_lines i draw }
{
    let mut piece = Piece::new();
    piece.put(b"add f");
    piece.put_four(i);
    piece.put(b".c 20 ");
    put_words(&mut piece, draw);
    piece.put(b"\nint h");
    piece.put_four(i);
    piece.put(b"(void) {\n}\n\n");
    piece
}

/// The lines of a file, by a draw: every tenth file is a source.
pub fn file_lines(i: u32, draw: u32) -> Piece
    requires { i < file_count }
    ensures { result ≡ file_lines i draw }
{
    if i % 10 == 0 {
        return add_lines(i, draw);
    }
    create_line(i, draw)
}

/// The line that removes a file. One of five files is removed; for the others there is no line.
pub fn rm_lines(i: u32) -> Piece
    requires { i < file_count }
    ensures { result ≡ rm_lines i }
{
    let mut piece = Piece::new();
    if i % 5 != 3 {
        return piece;
    }
    piece.put(b"rm f");
    piece.put_four(i);
    piece.put(b".txt\n");
    piece
}

pub fn last_lines() -> Piece
    ensures { result ≡ last_lines }
{
    let mut piece = Piece::new();
    piece.put(b"unaxiom g15 g07\naxiom g15 g06\n");
    piece.put(b"ls\ncd g01\nls\ncd /year:\nls\ncd /\nstat\n");
    piece
}
