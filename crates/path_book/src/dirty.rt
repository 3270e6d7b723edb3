//! The dirty pairs.

ghost use Rattle.std.specs.Prelude.{◌≡◌, ℕ, ◌<◌, [], false, true, length, replicate, IfOk, OnOk, OnErr};
ghost use Rattle.apsp_model.specs.Walk.{IsOnceEach};
ghost use Rattle.pair_heaps.specs.Heaps.{place_of};
ghost use Rattle.path_book.specs.Dirty.{AreAllOf, AreInside, AreSameDirty, IsListed, IsNoted, flag_at, is_dirty, with_all, with_flag};

use apsp_model::Memory;
use std::alloc::{AllocError, Global};
use std::marker::Model;

/// The dirty pairs: those whose least path may be one that is not historical. Contracts see whether
/// all are, and a flag for each pair, row by row.
#[derive(Drop)]
pub(crate) struct Dirty {
    n: u32,
    // Whether all pairs are dirty, whatever their flags say.
    all: bool,
    // The pair from x to y has the place x * n + y.
    flags: Vec<bool>,
    // The pairs whose flags are up, each once.
    pairs: Vec<(u32, u32)>,
}

impl Model for Dirty {
    ghost use Rattle.path_book.specs.Dirty.{Dirty as Seen, dirty_code, IsListed};

    ghost Value = { Seen };

    ghost coded = { dirty_code };

    ghost view = { λ d. record { vertices = d.n; all = d.all; flags = d.flags.items } };

    ghost invariant = { λ d. IsListed d.n d.flags.items d.pairs.items };
}

impl Dirty {
    /// No pair is dirty.
    pub(crate) fn new(alloc: Global, n: u32) -> Result<Dirty, Memory>
        ensures vertices { IfOk result (λ d. d.vertices ≡ n) }
        ensures none { IfOk result (λ d. (x y : ℕ) → x < n → y < n → is_dirty d x y ≡ false) }
    {
        let Ok(flags) = no_flags(alloc, n as usize * n as usize) else {
            return Err(Memory);
        };
        // Room for each pair, so that no later call takes memory: of it only what is used is touched.
        let Ok(pairs) = Vec::with_capacity(alloc, n as usize * n as usize) else {
            return Err(Memory);
        };
        Ok(Dirty {
            n,
            all: false,
            flags,
            pairs,
        })
    }

    /// Makes a pair dirty, and all pairs where there is no memory to list it.
    pub(crate) fn note(&mut self, x: u32, y: u32)
        requires from { x < self.old.vertices }
        requires to { y < self.old.vertices }
        ensures { IsNoted self.old self.new x y }
    {
        let place = self.place(x, y);
        if self.flags[place] {
            return;
        }
        match self.pairs.push((x, y)) {
            Ok(()) => self.flags[place] = true,
            Err(_) => self.all = true,
        }
    }

    /// Makes all pairs dirty.
    pub(crate) fn note_all(&mut self)
        ensures { self.new ≡ with_all self.old }
    {
        self.all = true;
    }

    /// Makes no pair dirty, in time of those that are listed.
    pub(crate) fn clear(&mut self)
        ensures vertices { self.new.vertices ≡ self.old.vertices }
        ensures none { (x y : ℕ) → x < self.old.vertices → y < self.old.vertices → is_dirty self.new x y ≡ false }
    {
        self.all = false;
        take_down(self.n, &mut self.flags, &mut self.pairs);
    }

    /// Lists the dirty pairs one by one, also where all are.
    pub(crate) fn list(&mut self) -> Result<(), Memory>
        ensures vertices { self.new.vertices ≡ self.old.vertices }
        ensures same { AreSameDirty self.old self.new }
        ensures listed { OnOk result (self.new.all ≡ false) }
    {
        if !self.all {
            return Ok(());
        }
        'rows: for x in 0..self.n {
            self.list_row(x)?;
        }
        self.all = false;
        Ok(())
    }

    /// Puts the flags of a row up.
    fn list_row(&mut self, x: u32) -> Result<(), Memory>
        requires from { x < self.old.vertices }
        ensures vertices { self.new.vertices ≡ self.old.vertices }
        ensures all { self.new.all ≡ self.old.all }
        ensures still { (u v : ℕ) → flag_at self.old u v ≡ true → flag_at self.new u v ≡ true }
        ensures row { OnOk result ((y : ℕ) → y < self.old.vertices → flag_at self.new x y ≡ true) }
    {
        'row: for y in 0..self.n {
            self.list_pair(x, y)?;
        }
        Ok(())
    }

    /// Puts the flag of a pair up. Memory changes nothing.
    fn list_pair(&mut self, x: u32, y: u32) -> Result<(), Memory>
        requires from { x < self.old.vertices }
        requires to { y < self.old.vertices }
        ensures up { OnOk result (self.new ≡ with_flag self.old x y) }
        ensures memory { OnErr result (self.new ≡ self.old) }
    {
        let place = self.place(x, y);
        if !self.flags[place] {
            self.pairs.push((x, y)).map_err(|_| Memory)?;
            self.flags[place] = true;
        }
        Ok(())
    }

    /// The pairs whose flags are up.
    pub(crate) fn pairs(&self) -> &[(u32, u32)]
        ensures inside { AreInside self.now.vertices result.now }
        ensures once { IsOnceEach result.now }
        ensures all { AreAllOf self.now result.now }
    {
        &self.pairs
    }

    fn place(&self, x: u32, y: u32) -> usize
        requires from { x < self.now.vertices }
        requires to { y < self.now.vertices }
        ensures is { result ≡ place_of self.now.vertices x y }
        ensures inside { result < length self.now.flags }
    {
        x as usize * self.n as usize + y as usize
    }
}

/// Takes the flags of the listed pairs down, and the pairs off the list.
fn take_down(n: u32, flags: &mut [bool], pairs: &mut Vec<(u32, u32)>)
    requires listed { IsListed n flags.old pairs.old.items }
    ensures listed { IsListed n flags.new pairs.new.items }
    ensures empty { pairs.new.items ≡ [] }
{
    'pairs: while let Some((x, y)) = pairs.pop() {
        flags[x as usize * n as usize + y as usize] = false;
    }
}

/// So many flags that are down.
fn no_flags(alloc: Global, places: usize) -> Result<Vec<bool>, AllocError>
    ensures { IfOk result (λ flags. flags.items ≡ replicate places false) }
{
    vec![in alloc; false; places]
}
