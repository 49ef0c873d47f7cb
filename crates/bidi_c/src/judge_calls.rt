//! Judges of test files.
ghost use Rattle.std.specs.Prelude.{◌≡◌, None, Some};
ghost use Rattle.units.specs.Limits.{standard};
ghost use Rattle.bidtests.specs.FileKinds.{stored_tables};
ghost use Rattle.bidtests.specs.JudgedSoFar.{TakesPiece};
ghost use Rattle.for_c.specs.LimitsGiven.{ByLimits};
ghost use Rattle.for_c.specs.Statuses.{ReturnsStatus};
ghost use Rattle.bidi_c.specs.ContentsAt.{contents_at};
ghost use Rattle.bidi_c.specs.JudgesAt.{AtJudge, EndsJudge, Finishes, MakesJudge, MakesTableJudge};

use crate::bidi_handle::BidiHandle;
use crate::contents::Contents;
use bidtests::judge::Judge;
use bidtests::kind::{Kind, StoredKind};
use for_c::call_error::{CallError, status};
use for_c::limits::BidiLimits;
use for_c::verdict::{BidiVerdict, verdict_for_c};
use std::alloc::Global;
use units::limits::Limits;

/// Makes a judge of a file of this kind with these limits, and puts it into the handle.
fn make_judge(
    alloc: Global,
    judge: &mut BidiHandle,
    kind: StoredKind<'static>,
    limits: Limits,
) -> Result<(), CallError>
    ensures { MakesJudge (stored_tables kind.entry) limits (contents_at judge.old) (contents_at judge.new) result }
{
    let Ok(made) = Judge::new(alloc, kind, limits) else {
        return Err(CallError::Memory);
    };
    match Box::new(alloc, made) {
        Ok(made) => judge.hold(alloc, Contents::Judge(made)),
        Err(_) => Err(CallError::Memory),
    }
}

/// Makes a judge of a BidiTest.txt with the standard limits, before its first byte. Once it is made, what the handle
/// contained before is freed. Fails with `Memory`; then the handle is unchanged.
#[unsafe(no_mangle)]
pub extern "C" fn bidi_judge_new_classes(alloc: Global, judge: &mut BidiHandle) -> u32
    ensures { ReturnsStatus (MakesJudge None standard (contents_at judge.old) (contents_at judge.new)) result }
{
    status(make_judge(
        alloc,
        judge,
        StoredKind::Borrowed(Kind::Classes),
        Limits::standard(),
    ))
}

/// Makes a judge of a BidiTest.txt as `bidi_judge_new_classes` does, with these limits in place of the standard ones.
#[unsafe(no_mangle)]
#[tactic(auto, using(crate::proofs::LimitsRejected::limits_rejected))]
pub extern "C" fn bidi_judge_new_classes_with(
    alloc: Global,
    judge: &mut BidiHandle,
    limits: BidiLimits,
) -> u32
    ensures { ReturnsStatus (ByLimits limits (MakesJudge None) (contents_at judge.old) (contents_at judge.new)) result }
{
    match limits.allowed() {
        Ok(limits) => status(make_judge(alloc, judge, StoredKind::Borrowed(Kind::Classes), limits)),
        Err(error) => status(Err(error)),
    }
}

/// Makes a judge that shares the tables of a handle, and puts it into the other handle.
fn make_characters_judge(
    alloc: Global,
    tables: &mut BidiHandle,
    judge: &mut BidiHandle,
    limits: Limits,
) -> Result<(), CallError>
    ensures tables { contents_at tables.new ≡ contents_at tables.old }
    ensures judge { MakesTableJudge (contents_at tables.old) limits (contents_at judge.old)
        (contents_at judge.new) result }
{
    let Some(contents) = tables.contents() else {
        return Err(CallError::NoTables);
    };
    let shared = contents.share_tables()?;
    make_judge(alloc, judge, StoredKind::Shared(shared), limits)
}

/// Makes a judge of a BidiCharacterTest.txt with the standard limits, before its first byte, that shares the tables.
/// Their handle may be freed before the judge. Once the judge is made, what its handle contained before is freed. Fails
/// with `NoTables` and with `Memory`; then that handle is unchanged.
#[unsafe(no_mangle)]
pub extern "C" fn bidi_judge_new_characters(
    alloc: Global,
    tables: &mut BidiHandle,
    judge: &mut BidiHandle,
) -> u32
    ensures tables { contents_at tables.new ≡ contents_at tables.old }
    ensures judge { ReturnsStatus (MakesTableJudge (contents_at tables.old) standard (contents_at judge.old)
        (contents_at judge.new)) result }
{
    status(make_characters_judge(alloc, tables, judge, Limits::standard()))
}

/// Makes a judge of a BidiCharacterTest.txt as `bidi_judge_new_characters` does, with these limits in place of the
/// standard ones.
#[unsafe(no_mangle)]
#[tactic(auto, using(crate::proofs::LimitsRejected::limits_rejected))]
pub extern "C" fn bidi_judge_new_characters_with(
    alloc: Global,
    tables: &mut BidiHandle,
    judge: &mut BidiHandle,
    limits: BidiLimits,
) -> u32
    ensures tables { contents_at tables.new ≡ contents_at tables.old }
    ensures judge { ReturnsStatus (ByLimits limits (MakesTableJudge (contents_at tables.old)) (contents_at judge.old)
        (contents_at judge.new)) result }
{
    match limits.allowed() {
        Ok(limits) => status(make_characters_judge(alloc, tables, judge, limits)),
        Err(error) => status(Err(error)),
    }
}

/// Frees a judge, and its tables if they have no other owner. The handle is all zero then, as it may be before.
#[unsafe(no_mangle)]
pub extern "C" fn bidi_judge_free(alloc: Global, judge: &mut BidiHandle)
    ensures { contents_at judge.new ≡ None }
{
    judge.empty(alloc);
}

/// Passes the next bytes of the file to the judge, if it is one.
fn feed_judge(contents: &mut Contents, piece: &[u8]) -> Result<(), CallError>
    ensures { AtJudge (TakesPiece piece.now) (Some contents.old) (Some contents.new) result }
{
    match contents {
        Contents::Judge(judge) => {
            judge.feed(piece);
            Ok(())
        }
        _ => Err(CallError::NoJudge),
    }
}

/// Writes the verdict of the judge, if it is one.
fn finish_judge(contents: &mut Contents, verdict: &mut BidiVerdict) -> Result<(), CallError>
    ensures { Finishes (Some contents.old) (Some contents.new) verdict.old verdict.new result }
{
    match contents {
        Contents::Judge(judge) => {
            *verdict = verdict_for_c(judge.verdict());
            Ok(())
        }
        _ => Err(CallError::NoJudge),
    }
}

/// Passes the next bytes of the file, as many or as few as there are. It takes no memory. Fails with `NoJudge`.
#[unsafe(no_mangle)]
#[tactic(auto, using(crate::proofs::AtJudges::no_judge))]
pub extern "C" fn bidi_judge_feed(judge: &mut BidiHandle, piece: &[u8]) -> u32
    ensures { ReturnsStatus (AtJudge (TakesPiece piece.now) (contents_at judge.old) (contents_at judge.new)) result }
{
    match judge.contents() {
        Some(contents) => status(feed_judge(contents, piece)),
        None => status(Err(CallError::NoJudge)),
    }
}

/// Writes the verdict on all bytes that were passed, as the whole file. Frees the judge, and its tables if they have no
/// other owner. Fails with `NoJudge`; then all is unchanged.
#[unsafe(no_mangle)]
#[tactic(auto, using(crate::proofs::AtJudges::none_to_end))]
pub extern "C" fn bidi_judge_finish(
    alloc: Global,
    judge: &mut BidiHandle,
    verdict: &mut BidiVerdict,
) -> u32
    ensures { ReturnsStatus (EndsJudge (contents_at judge.old) (contents_at judge.new) verdict.old verdict.new) result }
{
    let Some(contents) = judge.contents() else {
        return status(Err(CallError::NoJudge));
    };
    let done = finish_judge(contents, verdict);
    if done.is_ok() {
        judge.empty(alloc);
    }
    status(done)
}
