//! The network of a session: an engine, with a call for each command.

ghost use Rattle.std.specs.Prelude.{◌≡◌, ◌≢◌, ◌<◌, ◌≤◌, ◌+◌, ◌++◌, All, IfOk, IsSome, List, [], OnErr, OnOk, Option, false, length, string_bytes, ℕ};
ghost use Rattle.std.specs.Option.{ForSome};
ghost use Rattle.std.specs.List.{flat_map};
ghost use Rattle.apsp_model.specs.declared.TheConstants.{MOST_VERTICES, MOST_UPDATES};
ghost use Rattle.apsp_model.specs.Command.{Command, Star_update, Grow_update};
ghost use Rattle.apsp_model.specs.Least.{LeastIs};
ghost use Rattle.graph_store.specs.Making.{IsVertexCount};
ghost use Rattle.graph_store.specs.Edges.{IsWeight};
ghost use Rattle.history_engine.specs.Advance.{Advance, Stands};
ghost use Rattle.history_engine.specs.Answers.{IsSpentBy};
ghost use Rattle.block_run.specs.Run.{CanRun, HasRun};
ghost use Rattle.network_replies.specs.Age.{IsAgeReply};
ghost use Rattle.network_replies.specs.Distance.{IsDistance, AreDistances, IsDistReply, IsRowReply};
ghost use Rattle.network_replies.specs.Certificate.{IsTextOf, version_of};
ghost use Rattle.network_replies.specs.Growing.{GrowsBy, LinesGiven};
ghost use Rattle.network_replies.specs.Path.{IsPathReply};
ghost use Rattle.network_replies.specs.Replies.{entry_text, walk_text};
ghost use Rattle.network_replies.specs.Reporting.{IsEccReply, IsReportReply, IsThroughReply};
ghost use Rattle.network_replies.specs.EdgeStar.{star_with};
ghost use Rattle.network_replies.specs.Streams.{sink_seen};
ghost use Rattle.network_replies.specs.Stats.{IsStatsReply};

use crate::block::OpenBlock;
use crate::blocks::Blocks;
use crate::executor::Executor;
use crate::replies::{
    put_age, put_dist, put_ecc, put_entry, put_report, put_stats, put_through, put_walk,
};
use crate::stop::{Stop, given};
use apsp_io::{Gate, Sink};
use block_run::BlockAnswers;
use certificate::write_certificate;
use graph_store::{Graph, Star};
use history_engine::Engine;
use path_reports::{passing, span, summary};
use std::alloc::{AllocError, Global};
use std::fmt::Write;
use std::marker::{Model, Sync};
use std::thread::Threads;
use version_face::Version;

/// The network that the line `vertices` makes, which each later command of a session asks or changes. It
/// is seen as its engine, and has room for the star that `edge` and `cut` make, so that they take no
/// memory for it. The room for the version that `cert` writes and that reports are over is made at the
/// first of them, and again at the first behind a grow, and kept.
///
/// An update for which memory ran out leaves the network spent, and then no question may be put. A reply
/// is put behind a text as one line, of which nothing is said where memory ran out.
#[derive(Drop)]
pub struct Network {
    engine: Engine,
    star: Star,
    alloc: Global,
    // None before the first certificate or report, and after a grow.
    version: Option<Version>,
}

impl Model for Network {
    ghost use Rattle.history_engine.specs.Seen.{EngineSeen, engine_seen_code};
    ghost use Rattle.network_replies.specs.NetworkInside.{HasRoomForAnswers};

    ghost Value = { EngineSeen };

    ghost coded = { engine_seen_code };

    ghost view = { λ n. n.engine };

    ghost invariant = { HasRoomForAnswers };
}

impl Network {
    /// So many vertices and no edges, with smoothing or without it.
    pub fn new(alloc: Global, vertices: u32, smooth: bool) -> Result<Network, AllocError>
        requires { IsVertexCount vertices }
        ensures opening { IfOk result (λ n. n.opening ≡ vertices) }
        ensures smooth { IfOk result (λ n. n.smooth ≡ smooth) }
        ensures stands { IfOk result (λ n. Stands n []) }
    {
        Ok(Network {
            engine: Engine::new(alloc, vertices, smooth).map_err(|_| AllocError)?,
            star: Star::new(alloc, vertices, 0).map_err(|_| AllocError)?,
            alloc,
            version: None,
        })
    }

    /// The number of vertices.
    pub fn vertices(&self) -> u32
        ensures vertices { result ≡ self.now.graph.vertices }
        ensures most { result ≤ MOST_VERTICES }
    {
        self.engine.vertices()
    }

    /// Whether memory ran out in an update.
    pub fn is_spent(&self) -> bool
        ensures { result ≡ self.now.spent }
    {
        self.engine.is_spent()
    }

    /// Replaces the star of a vertex.
    pub fn apply<R: Threads + Sync, G: Gate, B: Blocks>(
        &mut self,
        executor: &Executor<'_, R, G, B>,
        star: &Star,
    ) -> Result<(), AllocError>
        requires same { star.now.vertices ≡ self.old.graph.vertices }
        requires few { length self.old.vertices < MOST_UPDATES }
        ensures made { OnOk result (Advance self.old (Star_update star.now) self.new) }
        ensures spent { OnErr result (IsSpentBy self.old self.new) }
    {
        executor.update(&mut self.engine, star)
    }

    /// Gives u the star that it has, with the edge to v of this weight or without it.
    pub fn put_edge<R: Threads + Sync, G: Gate, B: Blocks>(
        &mut self,
        executor: &Executor<'_, R, G, B>,
        u: u32,
        v: u32,
        weight: Option<u32>,
    ) -> Result<(), AllocError>
        requires from { u < self.old.graph.vertices }
        requires to { v < self.old.graph.vertices }
        requires apart { u ≢ v }
        requires weight { ForSome weight IsWeight }
        requires few { length self.old.vertices < MOST_UPDATES }
        ensures made { OnOk result (Advance self.old (Star_update (star_with self.old.graph u v weight)) self.new) }
        ensures spent { OnErr result (IsSpentBy self.old self.new) }
    {
        self.engine.graph().star_into(u, &mut self.star);
        self.star.put_out(v, weight);
        executor.update(&mut self.engine, &self.star)
    }

    /// Adds vertices without edges, so that there are n: an update at no vertex, in memory and time for a
    /// copy of the kept paths and for n² pairs. A network that is spent refuses it, and so does want of
    /// memory; the network is then as it was.
    pub fn grow(&mut self, n: u32) -> Result<(), AllocError>
        requires more { self.old.graph.vertices < n }
        requires most { n ≤ MOST_VERTICES }
        requires few { length self.old.vertices < MOST_UPDATES }
        ensures made { OnOk result (Advance self.old (Grow_update n) self.new) }
        ensures unchanged { OnErr result (self.new ≡ self.old) }
    {
        let star = Star::new(self.alloc, n, 0).map_err(|_| AllocError)?;
        self.engine.grow(n).map_err(|_| AllocError)?;
        self.star = star;
        self.version = None;
        Ok(())
    }

    /// The graph.
    pub fn graph(&self) -> &Graph
        ensures { result.now ≡ self.now.graph }
    {
        self.engine.graph()
    }

    /// The number of updates.
    pub fn number(&self) -> u64
        ensures { result ≡ length self.now.vertices }
    {
        self.engine.number()
    }

    /// Runs a block: its updates are made, and its questions are answered meanwhile.
    pub fn run_block<R: Threads + Sync, G: Gate, B: Blocks>(
        &mut self,
        executor: &Executor<'_, R, G, B>,
        block: &OpenBlock,
    ) -> Result<BlockAnswers, AllocError>
        requires live { IsSome (B.readers executor.now.blocks.now) }
        requires ready { B.ready executor.now.blocks.now }
        requires can { CanRun self.old block.now.plan block.now.asks }
        ensures { ForSome (B.readers executor.now.blocks.now) (λ r.
            HasRun r self.old block.now.plan block.now.asks result self.new) }
    {
        executor.run_block(&mut self.engine, block)
    }

    /// Puts the reply to `dist` behind the text.
    pub fn put_dist(&self, text: &mut String, x: u32, y: u32) -> Result<(), AllocError>
        requires not_spent { self.now.spent ≡ false }
        requires from { x < self.now.graph.vertices }
        requires to { y < self.now.graph.vertices }
        ensures { OnOk result
            (GrowsBy (IsDistReply self.now.graph x y) (string_bytes text.old) (string_bytes text.new)) }
    {
        let distance = self.distance(x, y);
        put_dist(text, x, y, distance)
    }

    /// Puts the reply to `row` behind the text.
    pub fn put_row(&self, text: &mut String, x: u32) -> Result<(), AllocError>
        requires not_spent { self.now.spent ≡ false }
        requires inside { x < self.now.graph.vertices }
        ensures { OnOk result (GrowsBy (IsRowReply self.now.graph x) (string_bytes text.old) (string_bytes text.new)) }
    {
        write!(text, "row {x}")?;
        self.put_distances(text, x)?;
        text.push('\n')
    }

    /// Puts the distance from x to each vertex behind the text.
    fn put_distances(&self, text: &mut String, x: u32) -> Result<(), AllocError>
        requires not_spent { self.now.spent ≡ false }
        requires inside { x < self.now.graph.vertices }
        ensures { OnOk result ((row : List (Option ℕ)) × AreDistances self.now.graph x row
            × (string_bytes text.new ≡ string_bytes text.old ++ flat_map entry_text row)) }
    {
        for y in 0..self.engine.graph().vertices() {
            let distance = self.distance(x, y);
            put_entry(text, distance)?;
        }
        Ok(())
    }

    /// What the least walk from x to y weighs.
    fn distance(&self, x: u32, y: u32) -> Option<u64>
        requires not_spent { self.now.spent ≡ false }
        requires from { x < self.now.graph.vertices }
        requires to { y < self.now.graph.vertices }
        ensures { IsDistance self.now.graph x y result }
    {
        match self.engine.least(x, y) {
            Some(least) => Some(least.weight()),
            None => None,
        }
    }

    /// Puts the reply to `path` behind the text.
    pub fn put_path(&self, text: &mut String, x: u32, y: u32) -> Result<(), AllocError>
        requires not_spent { self.now.spent ≡ false }
        requires from { x < self.now.graph.vertices }
        requires to { y < self.now.graph.vertices }
        ensures { OnOk result
            (GrowsBy (IsPathReply self.now.graph x y) (string_bytes text.old) (string_bytes text.new)) }
    {
        write!(text, "path {x} {y}")?;
        self.put_least(text, x, y)?;
        text.push('\n')
    }

    /// Puts the least walk from x to y behind the text, or `none`.
    fn put_least(&self, text: &mut String, x: u32, y: u32) -> Result<(), AllocError>
        requires not_spent { self.now.spent ≡ false }
        requires from { x < self.now.graph.vertices }
        requires to { y < self.now.graph.vertices }
        ensures { OnOk result ((walk : Option (List ℕ)) × LeastIs self.now.graph x y walk
            × (string_bytes text.new ≡ string_bytes text.old ++ walk_text self.now.graph walk)) }
    {
        match self.engine.least(x, y) {
            Some(least) => put_walk(text, &least),
            None => text.push_str(" none"),
        }
    }

    /// Puts the reply to `stats` behind the text.
    pub fn put_stats(&self, text: &mut String) -> Result<(), AllocError>
        requires { self.now.spent ≡ false }
        ensures { (commands : List Command) → Stands self.now commands
            → OnOk result
            (GrowsBy (IsStatsReply self.now.opening self.now.smooth commands) (string_bytes text.old)
            (string_bytes text.new)) }
    {
        put_stats(text, self.engine.counts())
    }

    /// Puts the reply to `age` behind the text.
    pub fn put_age(&self, text: &mut String, list: &[u32]) -> Result<(), AllocError>
        requires not_spent { self.now.spent ≡ false }
        requires some { 0 < length list.now }
        requires inside { All (λ v. v < self.now.graph.vertices) list.now }
        ensures { (commands : List Command) → Stands self.now commands
            → OnOk result
            (GrowsBy (IsAgeReply self.now.opening self.now.smooth commands list.now) (string_bytes text.old)
            (string_bytes text.new)) }
    {
        put_age(text, list, self.engine.birth(list))
    }

    /// Puts the reply to `ecc` behind the text, in O(n²) looks, since it is read off a version. The network
    /// stays as it is.
    pub fn put_ecc(&mut self, text: &mut String, x: u32) -> Result<(), AllocError>
        requires not_spent { self.old.spent ≡ false }
        requires inside { x < self.old.graph.vertices }
        ensures reply { OnOk result
            (GrowsBy (IsEccReply self.old.graph x) (string_bytes text.old) (string_bytes text.new)) }
        ensures same { self.new ≡ self.old }
    {
        let version = self.take_present()?;
        let span = span(&version, x);
        self.version = Some(version);
        put_ecc(text, x, span)
    }

    /// Puts the reply to `report` behind the text, in O(n²) looks, which threads share. The network stays
    /// as it is, and the reply is the same for any number of threads.
    pub fn put_report<R: Threads + Sync, G: Gate, B: Blocks>(
        &mut self,
        executor: &Executor<'_, R, G, B>,
        text: &mut String,
    ) -> Result<(), AllocError>
        requires { self.old.spent ≡ false }
        ensures reply { OnOk result
            (GrowsBy (IsReportReply self.old.graph) (string_bytes text.old) (string_bytes text.new)) }
        ensures same { self.new ≡ self.old }
    {
        let version = self.take_present()?;
        let found = summary(executor.rt, self.alloc, &version);
        self.version = Some(version);
        match found {
            Ok(summary) => put_report(text, &summary),
            Err(_) => Err(AllocError),
        }
    }

    /// Puts the reply to `through` behind the text, in O(n²) walks of O(n), which threads share. The network
    /// stays as it is, and the reply is the same for any number of threads.
    pub fn put_through<R: Threads + Sync, G: Gate, B: Blocks>(
        &mut self,
        executor: &Executor<'_, R, G, B>,
        text: &mut String,
        v: u32,
    ) -> Result<(), AllocError>
        requires not_spent { self.old.spent ≡ false }
        requires inside { v < self.old.graph.vertices }
        ensures reply { OnOk result
            (GrowsBy (IsThroughReply self.old.graph v) (string_bytes text.old) (string_bytes text.new)) }
        ensures same { self.new ≡ self.old }
    {
        let version = self.take_present()?;
        let found = passing(executor.rt, self.alloc, &version, v);
        self.version = Some(version);
        match found {
            Ok(pairs) => put_through(text, v, pairs.items().len()),
            Err(_) => Err(AllocError),
        }
    }

    /// Gives the sink the certificate of the present graph and number of updates, line by line, in O(n²)
    /// looks. The first one takes memory for the version that it writes. The network stays as it is.
    pub fn give_certificate<K: Sink>(&mut self, sink: &mut K) -> Result<(), Stop>
        requires not_spent { self.old.spent ≡ false }
        requires few { length self.old.vertices < MOST_UPDATES }
        ensures gives { (text : List ℕ) × IsTextOf (version_of self.old) text
            × LinesGiven result (sink_seen K.Sink sink.old) (sink_seen K.Sink sink.new) text }
        ensures same { self.new ≡ self.old }
        ensures later { K.faults sink.old ≤ K.faults sink.new }
    {
        let version = self.take_present()?;
        let ended = given(write_certificate(&version, sink));
        self.version = Some(version);
        ended
    }

    /// The present version, in the room for one. Whoever takes it gives it back.
    fn take_present(&mut self) -> Result<Version, AllocError>
        requires { self.old.spent ≡ false }
        ensures present { IfOk result (λ v. v ≡ version_of self.old) }
        ensures same { self.new ≡ self.old }
    {
        let mut version = self.take_room()?;
        self.engine.fill(&mut version);
        Ok(version)
    }

    /// The room for a version. It is made where there is none yet.
    fn take_room(&mut self) -> Result<Version, AllocError>
        ensures room { IfOk result (λ v. v.graph.vertices ≡ self.old.graph.vertices) }
        ensures same { self.new ≡ self.old }
    {
        match self.version.take() {
            Some(version) => Ok(version),
            None => Version::new(self.alloc, self.engine.vertices()).map_err(|_| AllocError),
        }
    }
}
