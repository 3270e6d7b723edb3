//! A certificate that is written, one line a give.
ghost use Rattle.std.specs.Prelude.{◌≡◌, ℕ, ◌<◌, ◌≤◌, ◌+◌, ◌*◌, ◌^◌, ◌∷◌, [], ◌++◌, length, codes, Option};
ghost use Rattle.std.specs.Option.{option_map};
ghost use Rattle.apsp_model.specs.Graph.{IsGraph, weight_at};
ghost use Rattle.apsp_model.specs.Stated.{Stated, Entry as Stated_entry};
ghost use Rattle.version_face.specs.Entries.{stated};
ghost use Rattle.certificate.specs.Grammar.{named, parted, edge_word_text, pair_word_text, words_text, joined, text_of};
ghost use Rattle.certificate.specs.Table.{item_list};
ghost use Rattle.certificate.specs.Giving.{IsStatedOf, GivesText};
ghost use Rattle.certificate.specs.Writing.{row_line_text, rows_text, table_text, row_edges, edge_items, IsEntryTable, row_pairs, pair_items};

use crate::MOST_DIGITS;
use crate::line::Line;
use apsp_io::{GiveError, Sink};
use version_face::{Entry, NO_DISTANCE, Version};

/// Gives the sink the certificate of the version in its second text, one line a give: a line for each vertex
/// that has an edge from it, and for each that has a walk to another one. It takes no memory of its own, but
/// room for a line, some 43 KB.
pub fn write_certificate<K: Sink>(version: &Version, sink: &mut K) -> Result<(), GiveError>
    requires { version.now.number < 10 ^ MOST_DIGITS }
    ensures text { (s : Stated) × IsStatedOf version.now s ×
        GivesText result (K.held sink.old) (K.held sink.new) (K.faults sink.old) (K.faults sink.new) (text_of s) }
    ensures later { K.faults sink.old ≤ K.faults sink.new }
{
    let mut line = Line::new();
    give_head(version, &mut line, sink)?;
    give_edges(version, &mut line, sink)?;
    give_pairs(version, &mut line, sink)?;
    give_fixed(b"end", &mut line, sink)
}

/// Gives the first three lines.
fn give_head<K: Sink>(version: &Version, line: &mut Line, sink: &mut K) -> Result<(), GiveError>
    ensures text { GivesText result (K.held sink.old) (K.held sink.new) (K.faults sink.old) (K.faults sink.new)
        (joined (codes "apsp certificate 2" ∷ named (codes "number") version.now.number
        ∷ named (codes "vertices") version.now.graph.vertices ∷ [])) }
    ensures later { K.faults sink.old ≤ K.faults sink.new }
    ensures graph { IsGraph version.now.graph }
{
    let n = version.vertices();
    give_fixed(b"apsp certificate 2", line, sink)?;
    give_named(b"number", version.number(), line, sink)?;
    give_named(b"vertices", u64::from(n), line, sink)
}

/// Gives the number of the edges and their lines.
fn give_edges<K: Sink>(version: &Version, line: &mut Line, sink: &mut K) -> Result<(), GiveError>
    ensures text { GivesText result (K.held sink.old) (K.held sink.new) (K.faults sink.old) (K.faults sink.new)
        (table_text (codes "edges") edge_word_text (weight_at version.now.graph) version.now.graph.vertices) }
    ensures later { K.faults sink.old ≤ K.faults sink.new }
{
    give_named(b"edges", u64::from(count_edges(version)), line, sink)?;
    give_edge_rows(version, line, sink)
}

/// Gives the number of the pairs that have a walk and their lines.
fn give_pairs<K: Sink>(version: &Version, line: &mut Line, sink: &mut K) -> Result<(), GiveError>
    ensures text { (f : ℕ → ℕ → Option Stated_entry) → IsEntryTable version.now.graph f →
        GivesText result (K.held sink.old) (K.held sink.new) (K.faults sink.old) (K.faults sink.new)
        (table_text (codes "pairs") pair_word_text f version.now.graph.vertices) }
    ensures later { K.faults sink.old ≤ K.faults sink.new }
{
    give_named(b"pairs", u64::from(count_pairs(version)), line, sink)?;
    give_pair_rows(version, line, sink)
}

fn give_edge_rows<K: Sink>(
    version: &Version,
    line: &mut Line,
    sink: &mut K,
) -> Result<(), GiveError>
    ensures text { GivesText result (K.held sink.old) (K.held sink.new) (K.faults sink.old) (K.faults sink.new)
        (rows_text edge_word_text (weight_at version.now.graph) version.now.graph.vertices version.now.graph.vertices) }
    ensures later { K.faults sink.old ≤ K.faults sink.new }
{
    'rows: for u in 0..version.vertices() {
        give_edge_row(version, u, line, sink)?;
    }
    Ok(())
}

/// Gives the line of the edges from u, if there are any.
fn give_edge_row<K: Sink>(
    version: &Version,
    u: u32,
    line: &mut Line,
    sink: &mut K,
) -> Result<(), GiveError>
    requires { u < version.now.graph.vertices }
    ensures text { GivesText result (K.held sink.old) (K.held sink.new) (K.faults sink.old) (K.faults sink.new)
        (row_line_text edge_word_text (row_edges version.now.graph u)) }
    ensures later { K.faults sink.old ≤ K.faults sink.new }
{
    if count_edge_row(version, u) == 0 {
        return Ok(());
    }
    line.clear();
    line.put_number(u64::from(u));
    put_edge_row(version, u, line);
    give_line(line, sink)
}

fn give_pair_rows<K: Sink>(
    version: &Version,
    line: &mut Line,
    sink: &mut K,
) -> Result<(), GiveError>
    ensures text { (f : ℕ → ℕ → Option Stated_entry) → IsEntryTable version.now.graph f →
        GivesText result (K.held sink.old) (K.held sink.new) (K.faults sink.old) (K.faults sink.new)
        (rows_text pair_word_text f version.now.graph.vertices version.now.graph.vertices) }
    ensures later { K.faults sink.old ≤ K.faults sink.new }
{
    'rows: for x in 0..version.vertices() {
        give_pair_row(version, x, line, sink)?;
    }
    Ok(())
}

/// Gives the line of the pairs from x, if there are any.
fn give_pair_row<K: Sink>(
    version: &Version,
    x: u32,
    line: &mut Line,
    sink: &mut K,
) -> Result<(), GiveError>
    requires { x < version.now.graph.vertices }
    ensures text { (f : ℕ → ℕ → Option Stated_entry) → IsEntryTable version.now.graph f →
        GivesText result (K.held sink.old) (K.held sink.new) (K.faults sink.old) (K.faults sink.new)
        (row_line_text pair_word_text (row_pairs version.now.graph f x)) }
    ensures later { K.faults sink.old ≤ K.faults sink.new }
{
    if count_pair_row(version, x) == 0 {
        return Ok(());
    }
    line.clear();
    line.put_number(u64::from(x));
    put_pair_row(version, x, line);
    give_line(line, sink)
}

/// Puts the words of the edges from u behind a line.
fn put_edge_row(version: &Version, u: u32, line: &mut Line)
    requires u { u < version.now.graph.vertices }
    requires room { length line.old ≤ 20 }
    ensures bytes { line.new ≡ line.old ++ words_text edge_word_text (row_edges version.now.graph u) }
    ensures within { length line.new ≤ 43028 }
{
    'cells: for v in 0..version.vertices() {
        put_weight(u, v, version.weight(u, v), line);
    }
}

/// Puts the words of the pairs from x behind a line.
fn put_pair_row(version: &Version, x: u32, line: &mut Line)
    requires x { x < version.now.graph.vertices }
    requires room { length line.old ≤ 20 }
    ensures bytes { (f : ℕ → ℕ → Option Stated_entry) → IsEntryTable version.now.graph f →
        line.new ≡ line.old ++ words_text pair_word_text (row_pairs version.now.graph f x) }
    ensures within { length line.new ≤ 43028 }
{
    'cells: for y in 0..version.vertices() {
        put_entry(x, y, entry(version, x, y), line);
    }
}

/// How many edges there are.
fn count_edges(version: &Version) -> u32
    ensures { result ≡ length (edge_items version.now.graph) }
{
    let mut count = 0;
    'rows: for u in 0..version.vertices() {
        count += count_edge_row(version, u);
    }
    count
}

/// How many edges there are from u.
fn count_edge_row(version: &Version, u: u32) -> u32
    requires { u < version.now.graph.vertices }
    ensures count { result ≡ length (row_edges version.now.graph u) }
    ensures most { result ≤ version.now.graph.vertices }
{
    let mut count = 0;
    'cells: for v in 0..version.vertices() {
        count += u32::from(version.weight(u, v).is_some());
    }
    count
}

/// How many pairs of different vertices have a walk.
fn count_pairs(version: &Version) -> u32
    ensures { (f : ℕ → ℕ → Option Stated_entry) → IsEntryTable version.now.graph f
        → result ≡ length (pair_items version.now.graph f) }
{
    let mut count = 0;
    'rows: for x in 0..version.vertices() {
        count += count_pair_row(version, x);
    }
    count
}

/// How many pairs of different vertices from x have a walk.
fn count_pair_row(version: &Version, x: u32) -> u32
    requires { x < version.now.graph.vertices }
    ensures count { (f : ℕ → ℕ → Option Stated_entry) → IsEntryTable version.now.graph f
        → result ≡ length (row_pairs version.now.graph f x) }
    ensures most { result ≤ version.now.graph.vertices }
{
    let mut count = 0;
    'cells: for y in 0..version.vertices() {
        count += u32::from(entry(version, x, y).is_some());
    }
    count
}

/// The entry of two different vertices, if there is a walk.
fn entry(version: &Version, x: u32, y: u32) -> Option<Entry>
    requires graph { IsGraph version.now.graph }
    requires from { x < version.now.graph.vertices }
    requires to { y < version.now.graph.vertices }
    ensures { (f : ℕ → ℕ → Option Stated_entry) → IsEntryTable version.now.graph f
        → option_map stated result ≡ f x y }
{
    if x == y {
        return None;
    }
    let place = y as usize;
    let dist = version.dist_row(x)[place];
    if dist == NO_DISTANCE {
        return None;
    }
    let hops = version.hops_row(x)[place];
    let next = version.next_row(x)[place];
    Some(Entry { dist, hops, next })
}

/// Puts the word of an edge behind a line, if there is one.
fn put_weight(from: u32, to: u32, weight: Option<u32>, line: &mut Line)
    requires { length line.old ≤ 42944 }
    ensures bytes { line.new ≡ line.old ++ words_text edge_word_text (item_list (from, to) weight) }
    ensures within { length line.new ≤ length line.old + 84 }
{
    if let Some(weight) = weight {
        line.put(b" ");
        line.put_number(u64::from(to));
        line.put(b":");
        line.put_number(u64::from(weight));
    }
}

/// Puts the word of a pair behind a line, if it has an entry.
fn put_entry(from: u32, to: u32, entry: Option<Entry>, line: &mut Line)
    requires { length line.old ≤ 42944 }
    ensures bytes { line.new ≡ line.old ++ words_text pair_word_text (item_list (from, to) (option_map stated entry)) }
    ensures within { length line.new ≤ length line.old + 84 }
{
    if let Some(entry) = entry {
        line.put(b" ");
        line.put_number(u64::from(to));
        line.put(b":");
        put_numbers(entry, line);
    }
}

/// Puts the distance, the hops and the next vertex of an entry behind a line.
fn put_numbers(entry: Entry, line: &mut Line)
    requires { length line.old ≤ 42966 }
    ensures bytes { line.new ≡ line.old ++ parted 58 (entry.dist ∷ entry.hops ∷ entry.next ∷ []) }
    ensures within { length line.new ≤ length line.old + 62 }
{
    line.put_number(entry.dist);
    line.put(b":");
    line.put_number(u64::from(entry.hops));
    line.put(b":");
    line.put_number(u64::from(entry.next));
}

/// Gives a line that is this text.
fn give_fixed<K: Sink>(text: &[u8], line: &mut Line, sink: &mut K) -> Result<(), GiveError>
    requires { length text.now ≤ 20 }
    ensures text { GivesText result (K.held sink.old) (K.held sink.new) (K.faults sink.old) (K.faults sink.new)
        (text.now ++ 10 ∷ []) }
    ensures later { K.faults sink.old ≤ K.faults sink.new }
{
    line.clear();
    line.put(text);
    give_line(line, sink)
}

/// Gives a line with a number behind a word.
fn give_named<K: Sink>(
    word: &[u8],
    number: u64,
    line: &mut Line,
    sink: &mut K,
) -> Result<(), GiveError>
    requires { length word.now ≤ 20 }
    ensures text { GivesText result (K.held sink.old) (K.held sink.new) (K.faults sink.old) (K.faults sink.new)
        (named word.now number ++ 10 ∷ []) }
    ensures later { K.faults sink.old ≤ K.faults sink.new }
{
    line.clear();
    line.put(word);
    line.put(b" ");
    line.put_number(number);
    give_line(line, sink)
}

/// Gives a line with its newline.
fn give_line<K: Sink>(line: &mut Line, sink: &mut K) -> Result<(), GiveError>
    requires { length line.old ≤ 43028 }
    ensures text { GivesText result (K.held sink.old) (K.held sink.new) (K.faults sink.old) (K.faults sink.new)
        (line.old ++ 10 ∷ []) }
    ensures later { K.faults sink.old ≤ K.faults sink.new }
{
    line.put(b"\n");
    sink.give(line.bytes())
}
