// Sheets that are read into tables and written from them: tests by subject.
#![tactic(auto)]

// A sheet that the tests share, and tables to read into.
#[cfg(test)]
mod samples;
// Sheets that are read and written back to the same bytes.
#[cfg(test)]
mod rounds;
// Bytes that are no sheet, each refused at its place.
#[cfg(test)]
mod refusals;
// Sheets whose values are at their limits.
#[cfg(test)]
mod limits;
// The longest sheet.
#[cfg(test)]
mod lengths;
// Tables that have just enough room, or one entry too few.
#[cfg(test)]
mod rooms;
// Models and lists of bytes that are refused when a sheet is written.
#[cfg(test)]
mod writes;
