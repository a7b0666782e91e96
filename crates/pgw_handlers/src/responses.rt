//! Where the responses of a call are kept.
ghost use Rattle.std.specs.Prelude.{◌≡◌, List, [], ◌∷◌, ◌++◌, OnOk};

use pgw_query::data::DataRow;
use pgw_query::data_rows::DataRows;
use pgw_types::listed::Listed;
use pgw_types::memory::OutOfMemory;
use std::alloc::Global;

/// Responses, in order.
pub trait ResponseList: Drop {
    type Response: Drop;

    /// What they are.
    ghost listed: { Self → List Self.Response };

    /// No responses.
    fn no_responses(alloc: Global) -> Self
        ensures { listed result ≡ [] };

    /// Adds a response at the end.
    fn keep(&mut self, response: Self::Response) -> Result<(), OutOfMemory>
        ensures { OnOk result (listed self.new ≡ listed self.old ++ response ∷ []) };
}

impl<R: Drop> ResponseList for Listed<R> {
    type Response = R;

    ghost listed = { λ responses. responses };

    fn no_responses(alloc: Global) -> Listed<R> {
        Listed::new(alloc)
    }

    fn keep(&mut self, response: R) -> Result<(), OutOfMemory> {
        self.push(response)
    }
}

/// Rows as responses: those that were read together stay as they came.
impl ResponseList for DataRows {
    type Response = DataRow;

    ghost listed = { λ rows. rows };

    fn no_responses(alloc: Global) -> DataRows {
        DataRows::new(alloc)
    }

    fn keep(&mut self, row: DataRow) -> Result<(), OutOfMemory> {
        self.push(row)
    }
}
