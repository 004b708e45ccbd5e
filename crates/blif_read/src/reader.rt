// The reader: the models that are ended, and the one in progress.
ghost use Rattle.std.specs.Prelude.{◌≡◌, ◌≢◌, ◌<◌, ◌++◌, ◌∷◌, [], IfOk, OnOk, MatchResult, Some, None, length, if◌then◌else◌};
ghost use Rattle.std.specs.Result.{result_err};
ghost use Rattle.std.specs.List.{list_any};
ghost use Rattle.std.specs.Str.{bytes_eq};
ghost use Rattle.blif_read.specs.Kinds.{arguments, kind, model_name};
ghost use Rattle.blif_read.specs.Faults.{model_fault, fault_inside};
ghost use Rattle.blif_read.specs.Statements.{statement, statement_of_kind};
ghost use Rattle.blif_read.specs.Answers.{IsRead, Reads, IsFault};
ghost use Rattle.blif_read.specs.Running.{Progress, all_ended, new_model, begin, end, go_on, follow, fault_next, place_in, FitsProgress};
ghost use Rattle.blif_read.specs.Readers.{progress_of, start};

use crate::fault::BlifFault;
use crate::inside::read_inside;
use crate::kind::{LineKind, kind_at};
use crate::models::BlifModel;
use crate::open_model::OpenModel;
use crate::place::LinePlace;
use crate::statement::Statement;
use crate::words::name_of;
use blif_text::TextLine;
use cyc_base::Name;
use indexmap::IndexSet;
use std::alloc::{AllocError, Global};

pub struct ModelReader {
    ended: Vec<BlifModel>,
    in_progress: Option<OpenModel>,
    // the names of all models so far
    names: IndexSet<Name>,
}

impl Drop for ModelReader {
    fn drop(self) {
        let ModelReader {
            ended: _,
            in_progress: _,
            names: _,
        } = self;
    }
}

impl ModelReader {
    pub fn new(alloc: Global) -> ModelReader
        ensures { progress_of result ≡ start }
    {
        ModelReader {
            ended: Vec::new(alloc),
            in_progress: None,
            names: IndexSet::new(alloc),
        }
    }

    // Where a line that follows lies.
    fn place(&self) -> LinePlace
        ensures { result ≡ place_in (progress_of self.now).in_progress }
    {
        match &self.in_progress {
            Some(model) => model.place(),
            None => LinePlace {
                in_model: false,
                pins: None,
                first: None,
            },
        }
    }

    // Ends the model in progress, where there is one.
    fn end_model(&mut self) -> Result<(), AllocError>
        ensures { OnOk result (progress_of self.new ≡ end (progress_of self.old)) }
    {
        if let Some(model) = self.in_progress.take() {
            self.ended.push(model.end()?)?;
        }
        Ok(())
    }

    // Adds what a line says that isn't a `.model` line.
    fn follow(&mut self, alloc: Global, said: Statement) -> Result<(), AllocError>
        requires { FitsProgress (progress_of self.old).in_progress said }
        ensures { OnOk result (progress_of self.new ≡ go_on (progress_of self.old) said) }
    {
        if let Some(model) = &mut self.in_progress {
            model.add(alloc, said)?;
        }
        Ok(())
    }

    // Begins a model of this name, where the one in progress ends.
    fn begin_model(&mut self, alloc: Global, name: Name) -> Result<(), AllocError>
        ensures { OnOk result (progress_of self.new ≡ record (end (progress_of self.old)) { in_progress = Some (new_model name) }) }
    {
        self.end_model()?;
        self.in_progress = Some(OpenModel::new(alloc, name));
        Ok(())
    }

    // Takes a `.model` line.
    fn take_model(&mut self, alloc: Global, line: &TextLine<'_>) -> Result<(), BlifFault>
        ensures { let fault = model_fault line.now.number (arguments line.now) (list_any (bytes_eq (model_name line.now)) self.old.names.keys) in
            MatchResult result
            (λ _. IsRead fault (begin (progress_of self.old) (model_name line.now)) (progress_of self.new))
            (IsFault fault) }
    {
        let number = line.number();
        if line.words() != 2 {
            return Err(BlifFault::BadModel { line: number });
        }
        let name = name_of(alloc, line.word(1))?;
        let (_, is_new) = self.names.insert_full(name.copy()?)?;
        if !is_new {
            return Err(BlifFault::ModelTwice { line: number });
        }
        self.begin_model(alloc, name)?;
        Ok(())
    }

    // Takes a line of a model that neither begins nor ends it.
    #[tactic(auto, using(crate::proofs::FollowLemmas::fits))]
    fn take_inside(
        &mut self,
        alloc: Global,
        kind: LineKind,
        line: &TextLine<'_>,
    ) -> Result<(), BlifFault>
        requires { kind ≢ LineKind.Model }
        ensures { let before = progress_of self.old in
            let fault = fault_inside kind line.now (place_in before.in_progress) in
            MatchResult result
            (λ _. IsRead fault (go_on before (statement_of_kind kind line.now)) (progress_of self.new))
            (IsFault fault) }
    {
        let place = self.place();
        let said = read_inside(alloc, kind, place, line)?;
        self.follow(alloc, said)?;
        Ok(())
    }

    // Takes a line that isn't a `.model` line.
    #[tactic(auto, using(crate::proofs::FollowLemmas::fault_of_other, crate::proofs::FollowLemmas::goes_on))]
    fn take_other(
        &mut self,
        alloc: Global,
        kind: LineKind,
        line: &TextLine<'_>,
    ) -> Result<(), BlifFault>
        requires { kind ≢ LineKind.Model }
        ensures { let before = progress_of self.old in
            let fault = if (place_in before.in_progress).in_model then fault_inside kind line.now (place_in before.in_progress) else Some (BlifFault.OutsideModel line.now.number) in
            MatchResult result
            (λ _. IsRead fault (follow before (statement_of_kind kind line.now)) (progress_of self.new))
            (IsFault fault) }
    {
        let place = self.place();
        if !place.in_model {
            return Err(BlifFault::OutsideModel {
                line: line.number(),
            });
        }
        match kind {
            LineKind::End => self.end_model()?,
            _ => self.take_inside(alloc, kind, line)?,
        }
        Ok(())
    }

    // Takes the next line.
    #[tactic(auto, using(crate::proofs::FollowLemmas::fault_of_other))]
    pub fn take_line(&mut self, alloc: Global, line: &TextLine<'_>) -> Result<(), BlifFault>
        ensures { let before = progress_of self.old in
            MatchResult result
            (λ _. IsRead (fault_next before line.now) (follow before (statement line.now)) (progress_of self.new))
            (IsFault (fault_next before line.now)) }
    {
        match kind_at(line) {
            LineKind::Model => self.take_model(alloc, line),
            kind => self.take_other(alloc, kind, line),
        }
    }

    // The models, where no line follows.
    pub fn finish(mut self) -> Result<Vec<BlifModel>, AllocError>
        ensures { IfOk result (λ models. models.items ≡ all_ended (progress_of self)) }
    {
        self.end_model()?;
        let ModelReader {
            ended,
            in_progress: _,
            names: _,
        } = self;
        Ok(ended)
    }
}
