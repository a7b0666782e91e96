//! Tests of the example that asks a list of questions.

mod asking;
