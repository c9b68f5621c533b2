// Records, read line by line.
ghost use Rattle.std.specs.Prelude.{◌≡◌, ◌<◌, ◌∷◌, [], IfOk, Some, length};
ghost use Rattle.dk_base.specs.Reading.{Line};
ghost use Rattle.dk_base.specs.declared.why.Why.TheVariants.{UnknownPoint};
ghost use Rattle.dk_decl.specs.Outcomes.{AnswerAgrees, ReaderGoesOn, or_refused};
ghost use Rattle.dk_trace.specs.Answers.{Shows};
ghost use Rattle.dk_trace.specs.Records.{declared_place, point_named_by, sample_of, var_decls_at};

use crate::bodies::BodyReader;
use crate::marks::refuse;
use crate::sample::BaseSample;
use dk_base::{Arena, BlockFault, PointId, Why, is_plain, unescape};
use dk_decl::VarDecl;
use dk_points::Points;
use std::alloc::Global;

/// A record that is being read, line by line.
#[derive(Drop)]
pub struct RecordReader<'a> {
    pub(crate) arena: &'a Arena,
    pub(crate) point: PointId,
    pub(crate) line: u64,
    pub(crate) body: BodyReader<'a>,
}

// The declared point of this name, which the line spells; another point is tried first.
fn named_point(
    points: &Points,
    first: PointId,
    line: u64,
    name: &[u8],
) -> Result<PointId, BlockFault>
    ensures point { Shows (λ p. p.0) result (or_refused UnknownPoint line (declared_place points.now name.now)) }
    ensures within { IfOk result (λ p. p.0 < length points.now) }
{
    match points.find_from(first, name) {
        None => Err(refuse(line, Why::UnknownPoint)),
        Some(point) => match points.decl(point) {
            None => Err(refuse(line, Why::UnknownPoint)),
            Some(_) => Ok(point),
        },
    }
}

// The declared point whose name is spelled by a record's first line; another point is tried first.
#[tactic(auto, unfolding(crate::specs::Records::point_named_by))]
pub(crate) fn point_named_by(
    alloc: Global,
    points: &Points,
    first: PointId,
    line: u64,
    bytes: &[u8],
) -> Result<PointId, BlockFault>
    ensures point { Shows (λ p. p.0) result (point_named_by points.now (record { number = line; bytes = bytes.now })) }
    ensures within { IfOk result (λ p. p.0 < length points.now) }
{
    if is_plain(bytes) {
        return named_point(points, first, line, bytes);
    }
    let name = unescape(alloc, bytes)?;
    named_point(points, first, line, name.as_slice())
}

// The variables that the point's block declares.
#[tactic(auto, unfolding(crate::specs::Records::var_decls_at))]
pub(crate) fn var_decls_at(points: &Points, point: PointId) -> &[VarDecl]
    requires { point.0 < length points.now }
    ensures { result.now ≡ var_decls_at points.now point.0 }
{
    match points.decl(point) {
        None => &[],
        Some(decl) => decl.vars.as_slice(),
    }
}

impl<'a> RecordReader<'a> {
    ghost use Rattle.dk_trace.specs.RecordsResumed.{IsOf, record_resumed, shown};

    /// A record that begins with this line. It is refused as `UnknownPoint` where the line spells the name of no declared point.
    #[tactic(auto, unfolding(crate::specs::Records::sample_of, crate::specs::RecordsResumed::record_resumed, crate::specs::BodiesResumed::body_resumed))]
    pub fn begin(
        alloc: Global,
        points: &Points,
        arena: &'a Arena,
        line: u64,
        bytes: &[u8],
    ) -> Result<RecordReader<'a>, BlockFault>
        ensures goes_on { ReaderGoesOn (record_resumed points.now) result (sample_of points.now (record { number = line; bytes = bytes.now })) }
        ensures of { IfOk result (λ r. IsOf points.now r) }
    {
        let point = point_named_by(alloc, points, PointId(0), line, bytes)?;
        Ok(RecordReader {
            arena,
            point,
            line,
            body: BodyReader::AtStart,
        })
    }

    /// One line more. The record is refused as `BadNonce`, `WrongName`, `BadValue`, `BadMark` or `ExtraLine` as soon as no lines behind it
    /// can make it good; after a fault no more is said of the reader than its point. The points are those of `begin`.
    #[tactic(auto, unfolding(crate::specs::RecordsResumed::record_resumed))]
    pub fn line(&mut self, points: &Points, line: u64, bytes: &[u8]) -> Result<(), BlockFault>
        requires { IsOf points.now self.old }
        ensures goes_on { ReaderGoesOn (λ _. record_resumed points.now self.new) result (λ ls. record_resumed points.now self.old (record { number = line; bytes = bytes.now } ∷ ls)) }
        ensures of { IsOf points.now self.new }
    {
        self.body
            .line(self.arena, var_decls_at(points, self.point), line, bytes)
    }

    /// The sample of a record that ends at this line. It is refused as `Truncated` where a line was still awaited: a nonce, or a variable's
    /// name, value or mark. The points are those of `begin`. Nothing is said of the reader behind it.
    #[tactic(auto, unfolding(crate::specs::RecordsResumed::record_resumed))]
    pub fn end(&mut self, points: &Points, line: u64) -> Result<BaseSample<'a>, BlockFault>
        requires { IsOf points.now self.old }
        ensures sample { Shows shown result (record_resumed points.now self.old [] (Some line)) }
        ensures of { IfOk result (λ s. s.point.0 < length points.now) }
    {
        let (nonce, values) = self
            .body
            .end(self.arena, var_decls_at(points, self.point), line)?;
        Ok(BaseSample {
            point: self.point,
            line: self.line,
            nonce,
            values,
        })
    }
}
