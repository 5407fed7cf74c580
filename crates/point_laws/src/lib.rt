//! That what is printed of points is read as the points: from the text of `printed_texts` through TOML, the keys of a
//! point and the small texts at them, to names and their numbers. The crate has no code of its own.
//!
//! Promises:
//!
//! `printed_points_are_read` has four clauses, under notes that a text stands for (`IsReading`: the draft and the names
//! that the reader finds in the text, and the conditions are met), and for any points of these notes (`IsPointNote`),
//! in any order:
//!
//! - `tables`: `points_text` of the points is a document of TOML, whose list `point` has a table for each point;
//!   nothing where there are no points.
//! - `points`: that list, read as the reader of notes reads it, stands for the points, where they are within the limit
//!   of the notes' version (`points_in`: `document`, `tables_at` with `point_of`, and `resolved_point`).
//! - `accepted`: where the points ascend by place, the draft of the notes with the printed points in place of its own
//!   (`with_printed`) stands for the notes with these points (`notes_in`): no name is missing, nothing stands there
//!   twice, and each condition is met.
//! - `stand`: so a text whose document has the printed list at the key `point`, at each other key what the document of
//!   the notes has, and no key that notes don't have (`HasPrinted`) stands for the notes with these points
//!   (`notes_of`).
//!
//! That TOML reads the text of notes without points and the printed text behind it as such a document is not proved for
//! every text; for the driver's notes it is computed (`proofs/Rows.antt`). A fact about the flag C is never part of a
//! point, so it is not printed.
#![tactic(auto)]

ghost use Rattle.point_laws.specs.PrintedPoints.{PrintedPointsAreAccepted, PrintedPointsAreRead, PrintedPointsAreTables};
ghost use Rattle.point_laws.specs.PrintedPoints.{PrintedPointsStand};

/// Under notes that a text stands for, what is printed of points of these notes (`points_text` of `printed_texts`) is a document of TOML,
/// and the points in it, read as those of notes are, are the points. Where these ascend by place, the reader accepts them in place of
/// the notes' own, and a text that has them so stands for the notes with these points.
pub fn printed_points_are_read()
    ensures tables { PrintedPointsAreTables }
    ensures points { PrintedPointsAreRead }
    ensures accepted { PrintedPointsAreAccepted }
    ensures stand { PrintedPointsStand }
{}
