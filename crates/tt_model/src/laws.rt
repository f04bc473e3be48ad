//! The laws of the definitions, as contracts of functions that nobody calls: the gate names them so. Proofs import the theorems of the
//! same names from `proofs/Theorems.antt`.
ghost use Rattle.tt_model.specs.Laws.{AtMostOneHolds, CheckpointsOpen, CommitsAlone, EntryIsAppended, ForcedNeverFalls, GrownIsSteady, LinesHaveAnswers, MarkEndsAll, NextIsAboveAll, NextIsFresh, OpeningFindsCommitted, OwnChangesAreSeen, PlacesAndFirstEntries, ReversedMayAbort, SeenRowsMayChange, StatesStaySound};
ghost use Rattle.tt_model.specs.GoodRows.{RowsStayGood, UsersRowsStayGood};
ghost use Rattle.tt_model.specs.GoodCatalog.{CatalogStaysGood};
ghost use Rattle.tt_model.specs.Opening.{FirstImagesOpen};
ghost use Rattle.tt_model.specs.StepLaws.{CatalogIsBelowItsBound, CopiesAndLinesAreApart, EntriesLieEndToEnd, FirstChangesFoundCommitted, FreePlaceIsAmongUsed, GoodRowsAreStorable, RefusedLinesLeaveAll, StepsAreDetermined, StepsGoOn, WorksAreNumbered, WorksArePlain};
ghost use Rattle.tt_model.specs.Works.{EndFits, LinesAreWorks, WorksFit};
ghost use Rattle.tt_model.specs.WholeRuns.{BookmarksStay, ForcedEntriesAreFound, HeldOnceInRuns, HeldOnceStays, LogFilesAreKept, ReadersGoInOrder, SelectsAreIsolated, TrailsGoOn};

/// An entry stands at or behind the end of the last one, and the log then ends where it does.
pub fn entry_is_appended()
    ensures { EntryIsAppended }
{}

/// The tables change at a commit alone.
pub fn commits_alone()
    ensures { CommitsAlone }
{}

/// A session sees its own changes at once, and those of others at their commit; aborts and marks leave its view.
pub fn own_changes_are_seen()
    ensures { OwnChangesAreSeen }
{}

/// Which transactions are live after an entry.
pub fn mark_ends_all()
    ensures { MarkEndsAll }
{}

/// The next transaction's number is of no transaction that is live or changed a place.
pub fn next_is_fresh()
    ensures { NextIsFresh }
{}

/// The next transaction's number is above that of each entry.
pub fn next_is_above_all()
    ensures { NextIsAboveAll }
{}

/// The forced part of the log only grows.
pub fn forced_never_falls()
    ensures { ForcedNeverFalls }
{}

/// At most one transaction holds a key or a unique value.
pub fn at_most_one_holds()
    ensures { AtMostOneHolds }
{}

/// Which places are in use, and where transactions began.
pub fn places_and_first_entries()
    ensures { PlacesAndFirstEntries }
{}

/// The cells that an engine holds are what is committed and the live changes.
pub fn grown_is_steady()
    ensures { GrownIsSteady }
{}

/// Which places a transaction may change.
pub fn seen_rows_may_change()
    ensures { SeenRowsMayChange }
{}

/// A transaction whose changes were reversed may be aborted.
pub fn reversed_may_abort()
    ensures { ReversedMayAbort }
{}

/// Lines lead from sound states to sound ones.
pub fn states_stay_sound()
    ensures { StatesStaySound }
{}

/// Lines have the answers of the table, and some have no other.
pub fn lines_have_answers()
    ensures { LinesHaveAnswers }
{}

/// At every place, opening an image with the log behind it finds what is committed.
pub fn opening_finds_committed()
    ensures { OpeningFindsCommitted }
{}

/// What a checkpoint copies, and where its log begins, are such that opening it finds what is committed.
pub fn checkpoints_open()
    ensures { CheckpointsOpen }
{}

/// Which log files are there after a completion, and after every other round.
pub fn log_files_are_kept()
    ensures { LogFilesAreKept }
{}

/// A select sees what is committed and its session's own changes, and nothing else.
pub fn selects_are_isolated()
    ensures { SelectsAreIsolated }
{}

/// What the reads of a session give, joined, is what is due from where it began: each change once, and in order.
pub fn readers_go_in_order()
    ensures { ReadersGoInOrder }
{}

/// The bookmark of an open reader stays, so the lines of sessions lead to sound states alone.
pub fn bookmarks_stay()
    ensures { BookmarksStay }
{}

/// Over every line, each key and unique value that tables and indexes had before it stays with at most one transaction.
pub fn held_once_stays()
    ensures { HeldOnceStays }
{}

/// Over whole runs, each key and unique value of the tables and indexes that are there then stays with at most one transaction.
pub fn held_once_in_runs()
    ensures { HeldOnceInRuns }
{}

/// Over every line, over every run and at its end the trail goes on, and no less of it is forced.
pub fn trails_go_on()
    ensures { TrailsGoOn }
{}

/// Behind the empty image of a database that was just created, opening finds what its log alone stands for.
pub fn first_images_open()
    ensures { FirstImagesOpen }
{}

/// What is found after a run, whichever way it ended, has all entries that were forced behind its answered lines.
pub fn forced_entries_are_found()
    ensures { ForcedEntriesAreFound }
{}

/// Each line leaves the log as the entries and forces of its works do, and so does the end of a run.
pub fn lines_are_works()
    ensures { LinesAreWorks }
{}

/// The entries of each line's works get their places, one behind the other.
pub fn works_fit()
    ensures lines { WorksFit }
    ensures end { EndFits }
{}

/// The entries of a run lie end to end, from the end that opening found.
pub fn entries_lie_end_to_end()
    ensures { EntriesLieEndToEnd }
{}

/// Over every line, over every run and at its end the trail goes on, and the log ends no earlier.
pub fn steps_go_on()
    ensures { StepsGoOn }
{}

/// The entries of a run have numbers from the one on that opening found to be the next.
pub fn works_are_numbered()
    ensures { WorksAreNumbered }
{}

/// A refused line leaves the state as it was.
pub fn refused_lines_leave_all()
    ensures { RefusedLinesLeaveAll }
{}

/// Two rounds of one line from one state differ in nothing, unless memory is wanting in one.
pub fn steps_are_determined()
    ensures { StepsAreDetermined }
{}

/// A line does the same before and behind the copies of its round.
pub fn copies_and_lines_are_apart()
    ensures { CopiesAndLinesAreApart }
{}

/// The first change of a live transaction at a place found what is committed there.
pub fn first_change_found_what_is_committed()
    ensures { FirstChangesFoundCommitted }
{}

/// What is read of the rows doesn't depend on a bound below which they lie.
pub fn catalog_is_below_its_bound()
    ensures { CatalogIsBelowItsBound }
{}

/// Users' rows stay good over every line: each fits its table, and each key and unique value stands once, in what is
/// committed and in what each live transaction sees.
pub fn users_rows_stay_good()
    ensures { UsersRowsStayGood }
{}

/// No row is damaged by any line: of system rows and users' rows, in what is committed, in what live transactions see and in each
/// first part of the trail.
pub fn rows_stay_good()
    ensures { RowsStayGood }
{}

/// The least free place is at most the count of places in use.
pub fn free_place_is_among_used()
    ensures { FreePlaceIsAmongUsed }
{}

/// Lines append entries that have the grammar of entries, and leave the log in its ranges.
pub fn works_are_plain()
    ensures { WorksArePlain }
{}

/// Lines may store rows in a sound state with good rows.
pub fn good_rows_are_storable()
    ensures { GoodRowsAreStorable }
{}

/// Lines keep the catalog good.
pub fn catalog_stays_good()
    ensures { CatalogStaysGood }
{}
