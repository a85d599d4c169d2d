ghost use Rattle.std.specs.Prelude.{◌≡◌, [], map, slice_index_or};
ghost use Rattle.std.specs.List.{list_any};
ghost use Rattle.std.specs.Str.{str_eq_ignore_ascii_case};
ghost use Rattle.sql_lex.specs.Keywords as spec;
ghost use Rattle.sql_lex.specs.Keywords.{keywords};

/// The words that can't be names, by how many letters they have: none, one and so on.
const KEYWORDS: [&[&[u8]]; 13] = [
    &[],
    &[],
    &[b"AS", b"BY", b"IS", b"ON", b"OR"],
    &[
        b"AND", b"ASC", b"CTX", b"DEL", b"GET", b"INT", b"KEY", b"NOT", b"SET",
    ],
    &[
        b"ANON", b"DESC", b"FROM", b"GDPR", b"INTO", b"JOIN", b"NULL", b"ONLY", b"OWNS", b"TEXT",
        b"VIEW",
    ],
    &[
        b"BEGIN", b"GROUP", b"INNER", b"ORDER", b"START", b"TABLE", b"WHERE",
    ],
    &[
        b"COMMIT", b"CREATE", b"DELETE", b"FORGET", b"INSERT", b"SELECT", b"UNIQUE", b"UPDATE",
        b"VALUES",
    ],
    &[b"EXPLAIN", b"FOREIGN", b"PRIMARY"],
    &[b"ACCESSES", b"OWNED_BY", b"ROLLBACK"],
    &[],
    &[b"CHECKPOINT", b"COMPLIANCE", b"DELETE_ROW", b"REFERENCES"],
    &[b"ACCESSED_BY", b"TRANSACTION"],
    &[b"DATA_SUBJECT"],
];

/// The two are the same letters, in any case.
fn is_same_word(one: &[u8], other: &[u8]) -> bool
    ensures { result ≡ str_eq_ignore_ascii_case one.now other.now }
{
    one.eq_ignore_ascii_case(other)
}

/// Whether the word is one of these, in any case.
fn is_among(words: &[&[u8]], word: &[u8]) -> bool
    ensures { result ≡ list_any (λ among. str_eq_ignore_ascii_case among.now word.now) words.now }
{
    words.iter().any(|among| is_same_word(among, word))
}

/// The list at a place of some, or none past the last. Takes no memory.
fn list_at(lists: &'static [&'static [&'static [u8]]], place: usize) -> &'static [&'static [u8]]
    ensures { map (λ word. word.now) result.now ≡ slice_index_or (map (λ words. map (λ word. word.now) words.now) lists.now) place [] }
{
    if place >= lists.len() {
        return &[];
    }
    lists[place]
}

/// The keywords of that many letters. Takes no memory.
fn of_length(letters: usize) -> &'static [&'static [u8]]
    ensures { map (λ word. word.now) result.now ≡ spec.of_length letters keywords }
{
    list_at(&KEYWORDS, letters)
}

/// Whether the word is a keyword, in any case. It is compared with those of its length alone.
pub fn is_keyword(word: &[u8]) -> bool
    ensures { result ≡ spec.is_keyword word.now }
{
    is_among(of_length(word.len()), word)
}
