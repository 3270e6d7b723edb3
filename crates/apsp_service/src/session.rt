//! One session: the lines of an input, answered as they become whole.

ghost use Rattle.std.specs.Prelude.{◌≡◌, Option, Some, None, ◌<◌, ◌≤◌, ◌+◌, ◌^◌, [], ◌∷◌, List, ℕ, length, take, IfOk, OnOk, IsTrue, ◌↔◌, false, string_bytes};
ghost use Rattle.script_reader.specs.Answer.{MeaningIs, FitsContext};
ghost use Rattle.network_replies.specs.Streams.{sink_seen};
ghost use Rattle.apsp_service.specs.Session.{State, first_state, context_at, context_of, accepted, counted, HasReply, HasBlockReply, after_line, after_lines, ending_of, has_refused};
ghost use Rattle.script_reader.specs.Meaning.{line_of};
ghost use Rattle.script_reader.specs.Input.{line_if_some};
ghost use Rattle.apsp_service.specs.Giving.{HasInside, CanBeUpdated, TextGiven, IsRepliedBy, CertificateGiven, vertices_in, GivingEnds};
ghost use Rattle.network_replies.specs.Growing.{GrowsBy, LinesGiven};
ghost use Rattle.graph_store.specs.Plan.{hi_of};
ghost use Rattle.history_engine.specs.Seen.{EngineSeen};
ghost use Rattle.std.specs.List.{flat_map};
ghost use Rattle.network_replies.specs.Blocks.{last_graph};
ghost use Rattle.network_replies.specs.Replies.{answer_text};
ghost use Rattle.apsp_service.specs.Standing.{HasState, HasStateAndContent, HasSomeStateAndContent, TakesFront, TakesPiece};
ghost use Rattle.script_reader.specs.Cutter.{StandsFor};
ghost use Rattle.apsp_model.specs.declared.TheConstants.{MOST_VERTICES, MOST_UPDATES};

use crate::terms::Terms;
use apsp_io::{Gate, GiveError, Sink};
use apsp_model::Memory;
use block_run::{Answer, BlockAnswers};
use network_replies::{Blocks, Executor, Network, OpenBlock, Stop, put_answer, put_error};
use script_reader::code::{OPEN_BLOCK, TOO_LONG};
use script_reader::{Context, Line, LineCutter, LineError, read_line};
use std::alloc::{AllocError, Global};
use std::marker::Sync;
use std::thread::Threads;

/// Where the reply to a line is: it is the session's text, or the certificate of its network, which is
/// given line by line, or the answers of a block.
#[derive(Drop)]
enum Reply {
    Text,
    Certificate,
    Answers(BlockAnswers),
}

/// What a session keeps from line to line: its terms, the line that is begun, the network and the block
/// that is open, how many lines there were and whether one was refused, and room for the text of a
/// reply.
#[derive(Drop)]
pub struct Session {
    alloc: Global,
    terms: Terms,
    cutter: LineCutter,
    network: Option<Network>,
    block: Option<OpenBlock>,
    lines: u32,
    refused: bool,
    text: String,
}

impl Session {
    /// Before the first line.
    pub fn new(alloc: Global, terms: Terms) -> Result<Session, Memory>
        ensures stands { IfOk result (λ s. HasState s (first_state s.terms)) }
        ensures terms { IfOk result (λ s. s.terms ≡ terms) }
        ensures content { IfOk result (λ s. StandsFor s.cutter []) }
        ensures open { IfOk result (λ s. s.cutter.whole ≡ false) }
    {
        Ok(Session {
            alloc,
            terms,
            cutter: LineCutter::new(alloc)?,
            network: None,
            block: None,
            lines: 0,
            refused: false,
            text: String::new(alloc),
        })
    }

    /// What the meaning of the next line depends on.
    fn context(&self) -> Context
        requires few { self.now.lines < 2 ^ 32 }
        requires stands { (s : State) × HasState self.now s }
        ensures context { (s : State) → HasState self.now s → result ≡ context_of s }
        ensures is { result ≡ context_at (vertices_in self.now.network) self.now.terms self.now.block }
        ensures most { result.vertices ≤ MOST_VERTICES }
    {
        let vertices = match &self.network {
            Some(network) => network.vertices(),
            None => 0,
        };
        let (updates, asks) = match &self.block {
            Some(block) => (block.count_updates(), block.count_asks()),
            None => (0, 0),
        };
        Context {
            vertices,
            live: self.terms.readers.is_some(),
            inside: self.block.is_some(),
            updates,
            asks,
            no_age: self.terms.no_age,
            no_grow: self.terms.no_grow,
        }
    }

    /// What the line that is begun asks for, or why and where it is refused.
    fn read(&self) -> Result<Line, LineError>
        requires few { self.now.lines < 2 ^ 32 }
        requires stands { (s : State) × HasState self.now s }
        ensures reading { (s : State) (content : List ℕ) → HasState self.now s → StandsFor self.now.cutter content
            → MeaningIs (line_of (context_of s) content) result }
        ensures fits { IfOk result
            (FitsContext (context_at (vertices_in self.now.network) self.now.terms self.now.block)) }
        ensures begun { IfOk result (λ line. (n : ℕ) → line ≡ Line.Grow n → 0 < vertices_in self.now.network) }
    {
        if self.cutter.too_long() {
            return Err(LineError::Refused {
                code: TOO_LONG,
                place: 0,
            });
        }
        read_line(self.alloc, self.cutter.line(), &self.context())
    }

    /// Does what an accepted line other than `cert` and `end` asks for, and puts the reply behind the text.
    fn execute<R: Threads + Sync, G: Gate, B: Blocks>(
        &mut self,
        executor: &Executor<'_, R, G, B>,
        line: Line,
    ) -> Result<(), AllocError>
        requires fits { FitsContext (context_at (vertices_in self.old.network) self.old.terms self.old.block) line }
        requires begun { (n : ℕ) → line ≡ Line.Grow n → 0 < vertices_in self.old.network }
        requires text_alone { line ≡ Line.Cert → ⊥ }
        requires goes_on { line ≡ Line.End → ⊥ }
        requires ready { CanBeUpdated self.old.network }
        requires stands { (s : State) × HasInside self.old.network self.old.block s × (s.lines < MOST_UPDATES) }
        ensures stands { (s : State) → HasInside self.old.network self.old.block s
            → self.old.terms ≡ s.terms
            → OnOk result (HasInside self.new.network self.new.block (accepted (counted s) line)) }
        ensures reply { (s : State) → HasInside self.old.network self.old.block s
            → OnOk result (GrowsBy (HasReply s.vertices s.terms.smooth s.commands line)
            (string_bytes self.old.text) (string_bytes self.new.text)) }
        ensures cutter { self.new.cutter ≡ self.old.cutter }
        ensures terms { self.new.terms ≡ self.old.terms }
        ensures lines { self.new.lines ≡ self.old.lines }
        ensures refused { self.new.refused ≡ self.old.refused }
    {
        if let Line::Vertices(vertices) = line {
            self.network = Some(Network::new(self.alloc, vertices, self.terms.smooth)?);
            self.block = None;
            return Ok(());
        }
        let Some(network) = &mut self.network else {
            return Ok(());
        };
        if let Line::Block = line {
            if self.terms.readers.is_some() {
                self.block = Some(OpenBlock::new(self.alloc, network.graph(), network.number())?);
            }
            return Ok(());
        }
        match &mut self.block {
            Some(block) => execute_in_block(block, line),
            None => execute_outside_block(network, executor, &mut self.text, line),
        }
    }

    /// Runs the block that is open, if one is, and gives its answers.
    fn end_block<R: Threads + Sync, G: Gate, B: Blocks>(
        &mut self,
        executor: &Executor<'_, R, G, B>,
    ) -> Result<BlockAnswers, AllocError>
        requires blocks { self.old.terms.readers ≡ B.readers executor.now.blocks.now }
        requires runs { B.ready executor.now.blocks.now }
        requires ready { CanBeUpdated self.old.network }
        requires stands { (s : State) × HasInside self.old.network self.old.block s
            × (s.terms ≡ self.old.terms) × (s.lines < MOST_UPDATES) }
        ensures stands { (s : State) → HasInside self.old.network self.old.block s
            → IfOk result (λ _. HasInside self.new.network self.new.block (accepted (counted s) Line.End)) }
        ensures reply { (s : State) → HasInside self.old.network self.old.block s
            → IfOk result (λ answers. HasBlockReply self.old.terms.readers s.block (flat_map answer_text answers)) }
        ensures cutter { self.new.cutter ≡ self.old.cutter }
        ensures terms { self.new.terms ≡ self.old.terms }
        ensures lines { self.new.lines ≡ self.old.lines }
        ensures refused { self.new.refused ≡ self.old.refused }
        ensures text { self.new.text ≡ self.old.text }
    {
        let Some(block) = self.block.take() else {
            return Ok(BlockAnswers::none(self.alloc));
        };
        let Some(network) = &mut self.network else {
            return Ok(BlockAnswers::none(self.alloc));
        };
        network.run_block(executor, &block)
    }

    /// Answers the line that is begun, and says where its reply is.
    fn answer<R: Threads + Sync, G: Gate, B: Blocks>(
        &mut self,
        executor: &Executor<'_, R, G, B>,
    ) -> Result<Reply, AllocError>
        requires few { self.old.lines + 1 < 2 ^ 32 }
        requires blocks { self.old.terms.readers ≡ B.readers executor.now.blocks.now }
        requires runs { B.ready executor.now.blocks.now }
        requires stands { (s : State) × HasState self.old s }
        ensures stands { (s : State) (content : List ℕ) → HasState self.old s → StandsFor self.old.cutter content
            → IfOk result (λ _. HasState self.new (after_line s content)) }
        ensures reply { (s : State) (content : List ℕ) → HasState self.old s → StandsFor self.old.cutter content
            → IfOk result (λ reply. IsRepliedBy reply s content (string_bytes self.new.text)) }
        ensures certificate { IfOk result (λ reply. reply ≡ Reply.Certificate
            → CanBeUpdated self.new.network × (0 < vertices_in self.new.network)) }
        ensures cutter { self.new.cutter ≡ self.old.cutter }
        ensures terms { self.new.terms ≡ self.old.terms }
        ensures lines { self.new.lines ≡ self.old.lines + 1 }
    {
        let reading = self.read();
        self.text.clear();
        self.lines += 1;
        match reading {
            Ok(Line::Cert) => Ok(Reply::Certificate),
            Ok(Line::End) => {
                let answers = self.end_block(executor)?;
                Ok(Reply::Answers(answers))
            }
            Ok(line) => {
                self.execute(executor, line)?;
                Ok(Reply::Text)
            }
            Err(LineError::Refused { code, place }) => {
                self.refused = true;
                put_error(&mut self.text, self.lines, code, place)?;
                Ok(Reply::Text)
            }
            Err(LineError::Memory) => Err(AllocError),
        }
    }

    /// Answers the line that is begun, and gives the sink its reply, each line of it by itself.
    fn answer_line<K: Sink, R: Threads + Sync, G: Gate, B: Blocks>(
        &mut self,
        executor: &Executor<'_, R, G, B>,
        sink: &mut K,
    ) -> Result<(), Stop>
        requires few { self.old.lines + 1 < 2 ^ 32 }
        requires blocks { self.old.terms.readers ≡ B.readers executor.now.blocks.now }
        requires runs { B.ready executor.now.blocks.now }
        requires stands { (s : State) × HasState self.old s }
        ensures stands { (s : State) (content : List ℕ) → HasState self.old s → StandsFor self.old.cutter content
            → OnOk result (HasState self.new (after_line s content)) }
        ensures gives { (s : State) (content : List ℕ) → HasState self.old s → StandsFor self.old.cutter content
            → GivingEnds result (sink_seen K.Sink sink.old) (sink_seen K.Sink sink.new) s (content ∷ []) }
        ensures terms { self.new.terms ≡ self.old.terms }
        ensures lines { self.new.lines ≡ self.old.lines + 1 }
        ensures later { K.faults sink.old ≤ K.faults sink.new }
    {
        match self.answer(executor)? {
            Reply::Text => give(sink, self.text.as_str()),
            Reply::Certificate => self.give_certificate(sink),
            Reply::Answers(given) => give_answers(sink, &mut self.text, given.answers()),
        }
    }

    /// Gives the sink the certificate of the network, line by line.
    fn give_certificate<K: Sink>(&mut self, sink: &mut K) -> Result<(), Stop>
        requires ready { CanBeUpdated self.old.network }
        requires some { 0 < vertices_in self.old.network }
        ensures stands { (s : State) → HasState self.old s → HasState self.new s }
        ensures gives { (s : State) → HasState self.old s
            → CertificateGiven result (sink_seen K.Sink sink.old) (sink_seen K.Sink sink.new) s }
        ensures terms { self.new.terms ≡ self.old.terms }
        ensures lines { self.new.lines ≡ self.old.lines }
        ensures later { K.faults sink.old ≤ K.faults sink.new }
    {
        match &mut self.network {
            Some(network) => network.give_certificate(sink),
            None => Ok(()),
        }
    }

    /// Takes the piece up to and with its first newline, or all of it, and answers the line that is
    /// whole then. Says how many bytes it took.
    fn answer_front<K: Sink, R: Threads + Sync, G: Gate, B: Blocks>(
        &mut self,
        executor: &Executor<'_, R, G, B>,
        piece: &[u8],
        sink: &mut K,
    ) -> Result<usize, Stop>
        requires blocks { self.old.terms.readers ≡ B.readers executor.now.blocks.now }
        requires runs { B.ready executor.now.blocks.now }
        requires stands { HasSomeStateAndContent self.old }
        requires some { 0 < length piece.now }
        requires opened { self.old.cutter.whole ≡ false }
        requires few { self.old.lines + 1 < 2 ^ 32 }
        ensures used { IfOk result (λ used. 0 < used) }
        ensures inside { IfOk result (λ used. used ≤ length piece.now) }
        ensures takes { (s : State) (content : List ℕ) → HasStateAndContent self.old s content
            → TakesFront result self.new (sink_seen K.Sink sink.old) (sink_seen K.Sink sink.new) s content piece.now }
        ensures lines { IfOk result (λ used. self.new.lines ≤ self.old.lines + used) }
        ensures opened { OnOk result (self.new.cutter.whole ≡ false) }
        ensures terms { self.new.terms ≡ self.old.terms }
        ensures later { K.faults sink.old ≤ K.faults sink.new }
    {
        let cut = self.cutter.feed(piece);
        if cut.whole {
            self.answer_line(executor, sink)?;
            self.cutter.clear();
        }
        Ok(cut.used)
    }

    /// Takes a piece of the input, and answers each line that is whole then.
    pub fn answer_piece<K: Sink, R: Threads + Sync, G: Gate, B: Blocks>(
        &mut self,
        executor: &Executor<'_, R, G, B>,
        piece: &[u8],
        sink: &mut K,
    ) -> Result<(), Stop>
        requires blocks { self.old.terms.readers ≡ B.readers executor.now.blocks.now }
        requires runs { B.ready executor.now.blocks.now }
        requires stands { HasSomeStateAndContent self.old }
        requires opened { self.old.cutter.whole ≡ false }
        requires few { self.old.lines + length piece.now < 2 ^ 32 }
        ensures takes { (s : State) (content : List ℕ) → HasStateAndContent self.old s content
            → TakesPiece result self.new (sink_seen K.Sink sink.old) (sink_seen K.Sink sink.new) s content piece.now }
        ensures lines { OnOk result (self.new.lines ≤ self.old.lines + length piece.now) }
        ensures opened { OnOk result (self.new.cutter.whole ≡ false) }
        ensures terms { self.new.terms ≡ self.old.terms }
        ensures later { K.faults sink.old ≤ K.faults sink.new }
    {
        let mut rest = piece;
        while !rest.is_empty() {
            let used = self.answer_front(executor, rest, sink)?;
            rest = &rest[used..];
        }
        Ok(())
    }

    /// Answers what stands behind the last newline of the input, where that is not empty.
    pub fn answer_last<K: Sink, R: Threads + Sync, G: Gate, B: Blocks>(
        &mut self,
        executor: &Executor<'_, R, G, B>,
        sink: &mut K,
    ) -> Result<(), Stop>
        requires few { self.old.lines + 1 < 2 ^ 32 }
        requires blocks { self.old.terms.readers ≡ B.readers executor.now.blocks.now }
        requires runs { B.ready executor.now.blocks.now }
        requires stands { HasSomeStateAndContent self.old }
        ensures gives { (s : State) (content : List ℕ) → HasStateAndContent self.old s content
            → GivingEnds result (sink_seen K.Sink sink.old) (sink_seen K.Sink sink.new) s (line_if_some content) }
        ensures stands { (s : State) (content : List ℕ) → HasStateAndContent self.old s content
            → OnOk result (HasState self.new (after_lines s (line_if_some content))) }
        ensures lines { OnOk result (self.new.lines ≤ self.old.lines + 1) }
        ensures terms { self.new.terms ≡ self.old.terms }
        ensures later { K.faults sink.old ≤ K.faults sink.new }
    {
        if self.is_line_empty() {
            Ok(())
        } else {
            self.answer_line(executor, sink)
        }
    }

    /// Whether the line that is begun has no content so far.
    fn is_line_empty(&self) -> bool
        ensures { (content : List ℕ) → StandsFor self.now.cutter content → IsTrue result ↔ (content ≡ []) }
    {
        self.cutter.is_empty()
    }

    /// Gives the reply to the end of the input, where a block is open there.
    pub fn finish<K: Sink>(&mut self, sink: &mut K) -> Result<(), Stop>
        requires few { self.old.lines + 1 < 2 ^ 32 }
        ensures gives { (s : State) → HasState self.old s
            → LinesGiven result (sink_seen K.Sink sink.old) (sink_seen K.Sink sink.new) (ending_of s) }
        ensures kept { (s : State) → HasState self.old s → HasState self.new s }
        ensures later { K.faults sink.old ≤ K.faults sink.new }
    {
        if self.block.is_none() {
            return Ok(());
        }
        self.text.clear();
        put_error(&mut self.text, self.lines + 1, OPEN_BLOCK, 0)?;
        give(sink, self.text.as_str())
    }

    /// Whether some line was refused, or a block is open.
    pub fn has_refused(&self) -> bool
        ensures { (s : State) → HasState self.now s → result ≡ has_refused s }
    {
        self.refused || self.block.is_some()
    }
}

/// Gives answers, each by itself.
fn give_answers<K: Sink>(sink: &mut K, text: &mut String, answers: &[Answer]) -> Result<(), Stop>
    ensures given { LinesGiven result (sink_seen K.Sink sink.old) (sink_seen K.Sink sink.new)
        (flat_map answer_text answers.now) }
    ensures later { K.faults sink.old ≤ K.faults sink.new }
{
    for answer in answers {
        text.clear();
        put_answer(text, answer)?;
        give(sink, text.as_str())?;
    }
    Ok(())
}

/// Gives a reply, where there is one.
pub fn give<K: Sink>(sink: &mut K, text: &str) -> Result<(), Stop>
    ensures given { TextGiven result (sink_seen K.Sink sink.old) (sink_seen K.Sink sink.new) text.now }
    ensures later { K.faults sink.old ≤ K.faults sink.new }
{
    if text.is_empty() {
        return Ok(());
    }
    match sink.give(text.as_bytes()) {
        Ok(()) => Ok(()),
        Err(GiveError::Failed) => Err(Stop::Sink),
        Err(GiveError::Memory) => Err(Stop::Memory),
    }
}

/// Does what a line asks for outside a block that is neither `cert` nor begins a graph or a block, and puts
/// the reply behind the text.
fn execute_outside_block<R: Threads + Sync, G: Gate, B: Blocks>(
    network: &mut Network,
    executor: &Executor<'_, R, G, B>,
    text: &mut String,
    line: Line,
) -> Result<(), AllocError>
    requires fits { (terms : Terms) × FitsContext (context_at network.old.graph.vertices terms None) line }
    requires goes_on { (n : ℕ) → line ≡ Line.Vertices n → ⊥ }
    requires text_alone { line ≡ Line.Cert → ⊥ }
    requires no_begin { line ≡ Line.Block → ⊥ }
    requires no_end { line ≡ Line.End → ⊥ }
    requires ready { CanBeUpdated (Some network.old) }
    ensures stands { (s : State) → HasInside (Some network.old) None s
        → OnOk result (HasInside (Some network.new) None (accepted (counted s) line)) }
    ensures reply { (s : State) → HasInside (Some network.old) None s
        → OnOk result (GrowsBy (HasReply s.vertices s.terms.smooth s.commands line)
        (string_bytes text.old) (string_bytes text.new)) }
{
    match line {
        Line::Star(star) => network.apply(executor, &star),
        Line::Edge { u, v, w } => network.put_edge(executor, u, v, Some(w)),
        Line::Cut { u, v } => network.put_edge(executor, u, v, None),
        Line::Grow(n) => network.grow(n),
        Line::Dist { x, y } => network.put_dist(text, x, y),
        Line::Path { x, y } => network.put_path(text, x, y),
        Line::Row { x } => network.put_row(text, x),
        Line::Stats => network.put_stats(text),
        Line::Age(list) => network.put_age(text, list.items()),
        Line::Ecc { x } => network.put_ecc(text, x),
        Line::Report => network.put_report(executor, text),
        Line::Through { v } => network.put_through(executor, text, v),
        Line::Nothing
        | Line::Vertices(_)
        | Line::Cert
        | Line::Block
        | Line::Ask { .. }
        | Line::End => Ok(()),
    }
}

/// Does what a line asks for in a block other than its end. There it has no reply.
fn execute_in_block(block: &mut OpenBlock, line: Line) -> Result<(), AllocError>
    requires fits { (terms : Terms)
        × FitsContext (context_at (last_graph block.old.plan).vertices terms (Some block.old)) line }
    requires few { hi_of block.old.plan < MOST_UPDATES }
    requires goes_on { line ≡ Line.End → ⊥ }
    ensures { (e : EngineSeen) (s : State) → HasInside (Some e) (Some block.old) s
        → OnOk result (HasInside (Some e) (Some block.new) (accepted (counted s) line)) }
{
    match line {
        Line::Star(star) => block.apply(star),
        Line::Edge { u, v, w } => block.put_edge(u, v, Some(w)),
        Line::Cut { u, v } => block.put_edge(u, v, None),
        Line::Ask { x, y, since } => block.ask(x, y, since),
        Line::Nothing
        | Line::Vertices(_)
        | Line::Grow(_)
        | Line::Dist { .. }
        | Line::Path { .. }
        | Line::Row { .. }
        | Line::Stats
        | Line::Age(_)
        | Line::Ecc { .. }
        | Line::Report
        | Line::Through { .. }
        | Line::Cert
        | Line::Block
        | Line::End => Ok(()),
    }
}
