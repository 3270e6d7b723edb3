//! The lines of the edges from a vertex and of the pairs from a vertex.
ghost use Rattle.std.specs.Prelude.{◌≡◌, ◌+◌, ◌<◌, ◌≤◌, ◌^◌, ◌&&◌, true, false, IfOk, IfSome, Some, None};
ghost use Rattle.certificate.specs.Reading.{edge_in_word, pair_in_word, edge_fits, pair_fits, is_above};
ghost use Rattle.certificate.specs.Inside.{with_stated_edge, with_pair};
ghost use Rattle.certificate.specs.Answer.{rest_behind, ReadsWords, ReadsGroup};

use crate::cuts::{first_word, four_numbers, number_before, two_numbers};
use crate::items::{Edge, Pair, edge_within, pair_within};
use crate::lines::{Lines, line_at};
use crate::stated::Stated;
use crate::{CertError, MOST_DIGITS};

/// What there is to say of the items of a line: how many there are, whether all are in range, whether
/// their second numbers rise, and the last of these.
#[derive(Clone, Copy, Debug)]
pub struct Items {
    pub count: u32,
    pub fit: bool,
    pub rise: bool,
    pub last: Option<u64>,
}

/// A line of items: its first number, how many items it has, and the lines behind it.
#[derive(Clone, Copy, Debug)]
pub struct Group<'a> {
    pub from: u64,
    pub count: u32,
    pub rest: Lines<'a>,
}

impl Items {
    fn none() -> Items
        ensures { result ≡ record { count = 0; fit = true; rise = true; last = None } }
    {
        Items {
            count: 0,
            fit: true,
            rise: true,
            last: None,
        }
    }

    /// With one item more: its second number, and whether it is in range.
    fn with(self, to: u64, fits: bool) -> Items
        requires { self.count + 1 < 2 ^ 32 }
        ensures { result ≡ record {
          count = self.count + 1;
          fit = self.fit && fits;
          rise = self.rise && is_above self.last to;
          last = Some to;
        } }
    {
        Items {
            count: self.count + 1,
            fit: self.fit && fits,
            rise: self.rise && is_above(self.last, to),
            last: Some(to),
        }
    }
}

/// Whether a number stands above the one before it.
fn is_above(before: Option<u64>, number: u64) -> bool
    ensures { result ≡ is_above before number }
{
    match before {
        Some(last) => last < number,
        None => true,
    }
}

/// The line of the edges from a vertex, which are at most so many, where the vertex of the line before it is
/// given. Adds these edges.
pub fn edge_group<'a>(
    stated: &mut Stated,
    most: u32,
    before: Option<u64>,
    lines: Lines<'a>,
) -> Result<Group<'a>, CertError>
    requires number { lines.number + 1 < 2 ^ 32 }
    ensures line { ReadsGroup edge_in_word (edge_fits stated.old.graph.vertices) most before (rest_behind lines.entry)
        stated.old.graph.edges stated.new.graph.edges result }
    ensures same { stated.new ≡ record stated.old
        { graph = record stated.old.graph { edges = stated.new.graph.edges } } }
    ensures number { IfOk result (λ g. g.rest.number ≡ lines.entry.number + 1) }
    ensures few { IfOk result (λ g. g.count ≤ most) }
{
    let (line, rest) = line_at(lines)?;
    let Some((from, words)) = number_before(b' ', line) else {
        return Err(CertError::Shape(lines.number));
    };
    let Some(items) = put_edges(stated, from, most, words) else {
        return Err(CertError::Shape(lines.number));
    };
    if !items.fit {
        return Err(CertError::Range(lines.number));
    }
    if is_above(before, from) && items.rise {
        Ok(Group {
            from,
            count: items.count,
            rest,
        })
    } else {
        Err(CertError::Order(lines.number))
    }
}

/// The line of the pairs from a vertex, likewise. Adds their entries.
pub fn pair_group<'a>(
    stated: &mut Stated,
    most: u32,
    before: Option<u64>,
    lines: Lines<'a>,
) -> Result<Group<'a>, CertError>
    requires number { lines.number + 1 < 2 ^ 32 }
    ensures line { ReadsGroup pair_in_word (pair_fits stated.old.graph.vertices) most before (rest_behind lines.entry)
        stated.old.entries stated.new.entries result }
    ensures same { stated.new ≡ record stated.old { entries = stated.new.entries } }
    ensures number { IfOk result (λ g. g.rest.number ≡ lines.entry.number + 1) }
    ensures few { IfOk result (λ g. g.count ≤ most) }
{
    let (line, rest) = line_at(lines)?;
    let Some((from, words)) = number_before(b' ', line) else {
        return Err(CertError::Shape(lines.number));
    };
    let Some(items) = put_pairs(stated, from, most, words) else {
        return Err(CertError::Shape(lines.number));
    };
    if !items.fit {
        return Err(CertError::Range(lines.number));
    }
    if is_above(before, from) && items.rise {
        Ok(Group {
            from,
            count: items.count,
            rest,
        })
    } else {
        Err(CertError::Order(lines.number))
    }
}

/// Adds the edges of words, up to the first that is not in range, and none where the words are not of the
/// form or more than so many.
fn put_edges(stated: &mut Stated, from: u64, most: u32, text: &[u8]) -> Option<Items>
    ensures words { ReadsWords (edge_in_word from) (edge_fits stated.old.graph.vertices) most text.now
        stated.old.graph.edges stated.new.graph.edges result }
    ensures same { stated.new ≡ record stated.old
        { graph = record stated.old.graph { edges = stated.new.graph.edges } } }
    ensures few { IfSome result (λ i. i.count ≤ most) }
{
    let mut items = Items::none();
    let mut rest = text;
    'words: for _ in 0..most {
        let (word, behind) = first_word(rest);
        let [to, weight] = two_numbers(b':', word)?;
        let fits = put_edge_in_range(stated, from, to, weight);
        items = items.with(to, fits);
        match behind {
            Some(text) => rest = text,
            None => return Some(items),
        }
    }
    None
}

/// Adds the entries of words, likewise.
fn put_pairs(stated: &mut Stated, from: u64, most: u32, text: &[u8]) -> Option<Items>
    ensures words { ReadsWords (pair_in_word from) (pair_fits stated.old.graph.vertices) most text.now
        stated.old.entries stated.new.entries result }
    ensures same { stated.new ≡ record stated.old { entries = stated.new.entries } }
    ensures few { IfSome result (λ i. i.count ≤ most) }
{
    let mut items = Items::none();
    let mut rest = text;
    'words: for _ in 0..most {
        let (word, behind) = first_word(rest);
        let [to, dist, hops, next] = four_numbers(b':', word)?;
        let fits = put_pair_in_range(stated, from, to, dist, hops, next);
        items = items.with(to, fits);
        match behind {
            Some(text) => rest = text,
            None => return Some(items),
        }
    }
    None
}

/// Adds the edge that the numbers say, if all are in range. Whether they are.
fn put_edge_in_range(stated: &mut Stated, from: u64, to: u64, weight: u64) -> bool
    ensures fits { result ≡ edge_fits stated.old.graph.vertices ((from, to), weight) }
    ensures put { result ≡ true → stated.new ≡ with_stated_edge stated.old ((from, to), weight) }
    ensures left { result ≡ false → stated.new ≡ stated.old }
{
    match edge_within(stated.vertices(), [from, to, weight]) {
        Some(edge) => {
            stated.put_edge(&edge);
            true
        }
        None => false,
    }
}

/// Adds the entry that the numbers say, if all are in range. Whether they are.
fn put_pair_in_range(
    stated: &mut Stated,
    from: u64,
    to: u64,
    dist: u64,
    hops: u64,
    next: u64,
) -> bool
    requires { dist < 10 ^ MOST_DIGITS }
    ensures fits { result ≡ pair_fits stated.old.graph.vertices
        ((from, to), record { dist = dist; hops = hops; next = next }) }
    ensures put { result ≡ true → stated.new ≡ with_pair stated.old
        ((from, to), record { dist = dist; hops = hops; next = next }) }
    ensures left { result ≡ false → stated.new ≡ stated.old }
{
    match pair_within(stated.vertices(), [from, to, dist, hops, next]) {
        Some(pair) => {
            stated.put_pair(&pair);
            true
        }
        None => false,
    }
}
