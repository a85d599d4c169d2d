ghost use Rattle.std.specs.Prelude.{◌<◌, length};

use sql_lex::{Lexer, SyntaxAt, Token, TokenKind};
use std::process::Abort;

/// The letter of a kind.
fn letter(kind: TokenKind) -> &'static str {
    match kind {
        TokenKind::Name => "n",
        TokenKind::Keyword => "k",
        TokenKind::Number => "d",
        TokenKind::Quoted => "q",
        TokenKind::Mark => "m",
    }
}

/// Adds a token: the letter of its kind, its start and its end.
fn show(rt: &(impl Abort + AllocGlobal), shown: &mut String, token: Token) {
    let (kind, start, end) = (letter(token.kind), token.start, token.end);
    let token = format!(in rt.alloc(); "{kind}{start}-{end} ").expect(rt, "memory");
    shown.push_str(token.as_str()).expect(rt, "memory");
}

/// The tokens of the text, by the first letter of their kind, their start and their end; and what ends them.
fn cut(rt: &(impl Abort + AllocGlobal), text: &str) -> String
    requires { length text.now < 1000 }
{
    let mut shown = String::new(rt.alloc());
    let mut lexer = Lexer::new(text);
    for _ in 0..text.len() + 1 {
        match lexer.next() {
            Ok(Some(token)) => show(rt, &mut shown, token),
            Ok(None) => {
                shown.push_str("end").expect(rt, "memory");
                break;
            }
            Err(SyntaxAt(at)) => {
                let fault = format!(in rt.alloc(); "fault {at}").expect(rt, "memory");
                shown.push_str(fault.as_str()).expect(rt, "memory");
                break;
            }
        }
    }
    shown
}

/// Texts and their tokens.
const CUTS: [(&str, &str); 26] = [
    ("", "end"),
    (" \t\r\n", "end"),
    ("-- all comment", "end"),
    ("--\n--\na", "n6-7 end"),
    ("select", "k0-6 end"),
    ("SeLeCt * from t", "k0-6 m7-8 k9-13 n14-15 end"),
    ("selects _a b9", "n0-7 n8-10 n11-13 end"),
    (
        "accessed_by data_subject delete_row delete_rows",
        "k0-11 k12-24 k25-35 n36-47 end",
    ),
    ("count sum", "n0-5 n6-9 end"),
    ("007 12ab", "d0-3 d4-6 n6-8 end"),
    ("<><=<!=>=>=", "m0-2 m2-4 m4-5 m5-7 m7-9 m9-11 end"),
    ("(,.)=+-*", "m0-1 m1-2 m2-3 m3-4 m4-5 m5-6 m6-7 m7-8 end"),
    ("a--b\nc", "n0-1 n5-6 end"),
    ("- -a", "m0-1 m2-3 n3-4 end"),
    ("a - --b", "n0-1 m2-3 end"),
    ("''", "q0-2 end"),
    ("'it''s'x", "q0-7 n7-8 end"),
    ("'--' ", "q0-4 end"),
    ("'\u{e9}'", "q0-4 end"),
    ("'a' 'b'", "q0-3 q4-7 end"),
    ("x '", "n0-1 fault 2"),
    ("x 'a''", "n0-1 fault 2"),
    ("a;b", "n0-1 fault 1"),
    ("!", "fault 0"),
    ("a \u{e9}", "n0-1 fault 2"),
    ("a \"b\"", "n0-1 fault 2"),
];

#[test]
fn texts_are_cut(rt: HostRuntime) {
    for (text, wanted) in &CUTS {
        assert!(rt; text.len() < 1000);
        assert_eq!(rt; cut(&rt, text).as_str(), *wanted);
    }
}

#[test]
fn a_fault_leaves_the_lexer(rt: HostRuntime) {
    let mut lexer = Lexer::new("a ?");
    let first = lexer.next().ok().flatten().expect(&rt, "a token");
    assert_eq!(rt; first.text, "a");
    assert_eq!(rt; lexer.next().err(), Some(SyntaxAt(2)));
    assert_eq!(rt; lexer.next().err(), Some(SyntaxAt(2)));
}
