// What halves tell that all samples don't.
ghost use Rattle.std.specs.Prelude.{◌≡◌, ◌<◌, ◌++◌, All, IfOk, List, OnOk, codes, flat_map, length, map};
ghost use Rattle.std.specs.List.{list_any};
ghost use Rattle.dk_base.specs.Values.Spelling.{bool_text};
ghost use Rattle.dk_base.specs.declared.values.Value.{Value as SampleValue};
ghost use Rattle.dk_engine.specs.Exact.{AreOfPoint};
ghost use Rattle.dk_engine.specs.Reading.{agree_read};
ghost use Rattle.dk_hierarchy.specs.Standing.{EngineStandsFor};
ghost use Rattle.dk_instances.specs.Instances.{IsInstance};
ghost use Rattle.dk_template.specs.Premises.{AreThere};
ghost use Rattle.dk_implications.specs.Conditions.{base_bools};
ghost use Rattle.dk_implications.specs.Implications.{implication, implied_by};
ghost use Rattle.dk_implications.specs.Reports.{implication_line, implications_text};
ghost use Rattle.dk_implications.specs.Standing.{AreOver, HalvesStandFor, StandFor};
ghost use Rattle.dk_implications.specs.Telling.{all_on, is_first, is_told, lines_of, told_line, told_lines};

use crate::{Halves, Split};
use dk_base::{NoMemory, Text, VarId};
use dk_engine::Engine;
use dk_filters::Candidate;
use dk_print::{push_count, push_heading, push_instance};
use dk_report::{Options, kept_alone};
use dk_template::Answers;
use std::alloc::Global;

// All filters are on, with this least number.
fn all_filters(least: u64) -> Options
    ensures { result ≡ all_on least }
{
    Options {
        least,
        keep_implied: false,
        keep_incomparable: false,
        keep_members: false,
        keep_constant: false,
        keep_parent: false,
        ignore_missing_entry: false,
    }
}

// Whether one of the variables agrees with the Bool in all samples.
fn has_alike(whole: &Engine, b: VarId, vars: &[VarId]) -> bool
    requires b { b.0 < length whole.now.infos }
    requires vars { AreThere whole.now.infos vars.now }
    ensures { result ≡ list_any (agree_read whole.now.kept b) vars.now }
{
    for v in vars {
        if whole.agree(b, *v) {
            return true;
        }
    }
    false
}

// Whether the Bool is the first of those that agree with it in all samples.
fn is_first(whole: &Engine, all: &[Halves], b: VarId) -> bool
    requires b { b.0 < length whole.now.infos }
    requires all { All (λ halves. halves.condition.0 < length whole.now.infos) all.now }
    ensures { result ≡ is_first whole.now.kept all.now b }
{
    for halves in all {
        if whole.agree(halves.condition, b) {
            return halves.condition.0 == b.0;
        }
    }
    false
}

// Whether the instance, which holds on a half, says more there than in all samples: none of its variables agrees with the Bool in all of
// them, and it has another state there.
fn is_told(whole: &Engine, b: VarId, instance: &Candidate) -> Result<bool, NoMemory>
    requires b { b.0 < length whole.now.infos }
    requires instance { IsInstance whole.now.grammar whole.now.infos instance.now.row instance.now.vars }
    ensures { IfOk result (λ told. told ≡ is_told whole.now.kept b instance.now) }
{
    let vars = instance.vars.as_slice();
    if has_alike(whole, b, vars) {
        return Ok(false);
    }
    let state = whole.answer(instance.row, vars)?;
    Ok(instance.state != state)
}

// The text between a Bool of this truth value and what it implies.
fn condition_text(truth: bool) -> &'static [u8]
    ensures { result.now ≡ codes " == " ++ bool_text truth ++ codes " ==> " }
{
    if truth {
        b" == true ==> "
    } else {
        b" == false ==> "
    }
}

// The engine of all samples of a point, beside which its halves are told of, with the least number.
#[derive(Clone, Copy)]
struct Telling<'a> {
    alloc: Global,
    least: u64,
    whole: &'a Engine,
}

impl<'a> Telling<'a> {
    // The line of an implication.
    fn push_implication(
        &self,
        text: &mut Text,
        b: VarId,
        truth: bool,
        instance: &Candidate,
    ) -> Result<(), NoMemory>
        requires { b.0 < length self.now.whole.now.infos }
        ensures { OnOk result (text.new ≡ text.old ++ implication_line self.now.whole.now.infos (implication b truth instance.now)) }
    {
        let vars = self.whole.vars();
        let tuple = instance.vars.as_slice();
        text.append(vars[b.0 as usize].name.as_slice())?;
        text.append(condition_text(truth))?;
        push_instance(text, instance.row, vars, tuple, &instance.state)?;
        push_count(text, instance.count)
    }

    // The line of an instance of a half, if it says more there.
    fn push_told_line(
        &self,
        text: &mut Text,
        b: VarId,
        truth: bool,
        instance: &Candidate,
    ) -> Result<(), NoMemory>
        requires b { b.0 < length self.now.whole.now.infos }
        requires instance { IsInstance self.now.whole.now.grammar self.now.whole.now.infos instance.now.row instance.now.vars }
        ensures { OnOk result (text.new ≡ text.old ++ told_line self.now.whole.now b truth instance.now) }
    {
        let told = is_told(self.whole, b, instance)?;
        if !told {
            return Ok(());
        }
        self.push_implication(text, b, truth, instance)
    }

    // The lines of those instances of a half that say more there.
    fn push_told_lines(
        &self,
        text: &mut Text,
        b: VarId,
        truth: bool,
        list: &[Candidate],
    ) -> Result<(), NoMemory>
        requires b { b.0 < length self.now.whole.now.infos }
        requires list { All (λ c. IsInstance self.now.whole.now.grammar self.now.whole.now.infos c.row c.vars) list.now }
        ensures { OnOk result (text.new ≡ text.old ++ told_lines self.now.whole.now b truth list.now) }
    {
        for instance in list {
            self.push_told_line(text, b, truth, instance)?;
        }
        Ok(())
    }

    // The lines of a half.
    fn push_half(&self, text: &mut Text, halves: &Halves, truth: bool) -> Result<(), NoMemory>
        requires point { AreOfPoint self.now.whole.now.infos }
        requires condition { halves.now.condition.0 < length self.now.whole.now.infos }
        requires over { AreOver self.now.whole.now.grammar self.now.whole.now.infos halves.now }
        ensures { OnOk result ((samples : List (List SampleValue)) → EngineStandsFor self.now.whole.now samples → HalvesStandFor halves.now samples
            → text.new ≡ text.old ++ flat_map (implication_line self.now.whole.now.infos) (implied_by self.now.whole.now.grammar self.now.least self.now.whole.now.infos samples halves.now.condition truth)) }
    {
        let options = all_filters(self.least);
        let list = kept_alone(self.alloc, &options, halves.half(truth))?;
        self.push_told_lines(text, halves.condition, truth, list.as_slice())
    }

    // The lines of both halves, if the Bool is the first of those that agree with it.
    fn push_halves(&self, text: &mut Text, all: &[Halves], halves: &Halves) -> Result<(), NoMemory>
        requires point { AreOfPoint self.now.whole.now.infos }
        requires conditions { map (λ halves. halves.condition) all.now ≡ base_bools self.now.whole.now.infos }
        requires condition { halves.now.condition.0 < length self.now.whole.now.infos }
        requires over { AreOver self.now.whole.now.grammar self.now.whole.now.infos halves.now }
        ensures { OnOk result ((samples : List (List SampleValue)) → EngineStandsFor self.now.whole.now samples → HalvesStandFor halves.now samples
            → text.new ≡ text.old ++ lines_of self.now.whole.now.grammar self.now.least self.now.whole.now.infos samples halves.now.condition) }
    {
        if !is_first(self.whole, all, halves.condition) {
            return Ok(());
        }
        self.push_half(text, halves, true)?;
        self.push_half(text, halves, false)
    }

    // The lines of all halves.
    fn push_all(&self, text: &mut Text, all: &[Halves]) -> Result<(), NoMemory>
        requires point { AreOfPoint self.now.whole.now.infos }
        requires conditions { map (λ halves. halves.condition) all.now ≡ base_bools self.now.whole.now.infos }
        requires over { All (AreOver self.now.whole.now.grammar self.now.whole.now.infos) all.now }
        ensures { OnOk result ((samples : List (List SampleValue)) → EngineStandsFor self.now.whole.now samples → All (λ halves. HalvesStandFor halves samples) all.now
            → text.new ≡ text.old ++ flat_map (λ halves. lines_of self.now.whole.now.grammar self.now.least self.now.whole.now.infos samples halves.condition) all.now) }
    {
        for halves in all {
            self.push_halves(text, all, halves)?;
        }
        Ok(())
    }
}

impl Split {
    /// The section of the implications of a point of this name, behind the text: the heading with the number of its samples, and for each
    /// implication a line. After an error the text may hold a part of it.
    pub fn push_implications(
        &self,
        text: &mut Text,
        name: &[u8],
        least: u64,
    ) -> Result<(), NoMemory>
        ensures { OnOk result ((samples : List (List SampleValue)) → StandFor self.now samples → text.new ≡ text.old ++ implications_text self.now.whole.grammar least name.now self.now.whole.infos samples) }
    {
        let telling = Telling {
            alloc: self.alloc,
            least,
            whole: &self.whole,
        };
        push_heading(text, name, self.whole.counts().samples)?;
        telling.push_all(text, self.halves.as_slice())
    }
}
