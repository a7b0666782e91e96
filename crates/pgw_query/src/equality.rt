//! Equality of the messages of queries, and of what they tell.
ghost use Rattle.pgw_wire.specs.Equal.{IsExact};

use crate::data::{DataRow, FieldDescription, RowDescription};
use crate::description::ParameterDescription;
use crate::field_info::{FieldFormat, FieldInfo};
use crate::notification::NotificationResponse;
use crate::pg_type::PgType;
use crate::response::{CommandComplete, InfoResponse, ReadyForQuery, TransactionStatus};
use crate::row_error::SqlFault;
use crate::simplequery::Query;
use crate::tag::Tag;

/// Two values are equal exactly where they are the same.
pub fn equality_is_exact()
    ensures query { IsExact ⟦<Query as PartialEq>⟧.eq }
    ensures transaction_status { IsExact ⟦<TransactionStatus as PartialEq>⟧.eq }
    ensures ready_for_query { IsExact ⟦<ReadyForQuery as PartialEq>⟧.eq }
    ensures command_complete { IsExact ⟦<CommandComplete as PartialEq>⟧.eq }
    ensures notification_response { IsExact ⟦<NotificationResponse as PartialEq>⟧.eq }
    ensures field_description { IsExact ⟦<FieldDescription as PartialEq>⟧.eq }
    ensures row_description { IsExact ⟦<RowDescription as PartialEq>⟧.eq }
    ensures parameter_description { IsExact ⟦<ParameterDescription as PartialEq>⟧.eq }
    ensures data_row { IsExact ⟦<DataRow as PartialEq>⟧.eq }
    ensures tag { IsExact ⟦<Tag as PartialEq>⟧.eq }
    ensures pg_type { IsExact ⟦<PgType as PartialEq>⟧.eq }
    ensures field_format { IsExact ⟦<FieldFormat as PartialEq>⟧.eq }
    ensures field_info { IsExact ⟦<FieldInfo as PartialEq>⟧.eq }
    ensures sql_fault { IsExact ⟦<SqlFault as PartialEq>⟧.eq }
{}

/// Two errors, or two notices, are equal exactly where they are the same.
pub fn info_equality_is_exact<const TYPE: u8>()
    ensures { IsExact ⟦<InfoResponse<TYPE> as PartialEq>⟧.eq }
{}
