//! What records and verdicts come to.
ghost use Rattle.dk_verdicts.specs.Laws.{LaterPointsAreNotReached, PathsAreAll, PathsAreOnce, RecordsAreOfTheirPoints, RecordsReachAlongPaths, RecordsReachOverEdges, ReportsAreOne, VerdictsAreOne, ViolatedStays};

/// In a table without a cycle a record reaches a point with what the point has of it itself, and then, over each edge into the point, with
/// the samples that reach the edge's child, mapped. Its own point has its sample, and a point that is declared behind it has none.
pub fn records_reach_over_edges()
    ensures edges { RecordsReachOverEdges }
    ensures own { RecordsAreOfTheirPoints }
    ensures later { LaterPointsAreNotReached }
{}

/// A record reaches a point along each path from its own point, once: with its sample, mapped along the path.
pub fn records_reach_along_paths()
    ensures samples { RecordsReachAlongPaths }
    ensures all { PathsAreAll }
    ensures once { PathsAreOnce }
{}

/// A claim that is violated stays so with more records.
pub fn violated_stays()
    ensures { ViolatedStays }
{}

/// A claim has at most one verdict, and claims have at most one report.
pub fn verdicts_are_one()
    ensures verdicts { VerdictsAreOne }
    ensures reports { ReportsAreOne }
{}
