//! What holds of the messages of queries. Those without a body have their rows from `pgw_wire::empty`.
ghost use Rattle.std.specs.Prelude.{◌≡◌, ◌∷◌, [], ℕ, List, None, Ok, IsUtf8};
ghost use Rattle.pgw_types.specs.declared.context.DecodeContext.{DecodeContext as TheContext};
ghost use Rattle.pgw_wire.specs.declared.framing.Framing.TheVariants.{Typed};
ghost use Rattle.pgw_wire.specs.Framing.{encoded};
ghost use Rattle.pgw_wire.specs.Counted.{counted16, is_too_long};
ghost use Rattle.pgw_wire.specs.Writing.{text, u32, has_zero, refused_if};
ghost use Rattle.pgw_wire.specs.Formats.{IsRow, SpellsTyped};
ghost use Rattle.pgw_query.specs.declared.simplequery.Query.{Query as TheQuery};
ghost use Rattle.pgw_query.specs.declared.response.CommandComplete.{CommandComplete as TheCommandComplete};
ghost use Rattle.pgw_query.specs.declared.response.ReadyForQuery.{ReadyForQuery as TheReadyForQuery};
ghost use Rattle.pgw_query.specs.declared.response.InfoResponse.{InfoResponse as TheInfoResponse};
ghost use Rattle.pgw_query.specs.Rows.{query_of, command_complete_of, ready_for_query_of, notification_response_of, parameter_description_of, row_description_of, data_row_of, SpellsQuery, SpellsCommandComplete, SpellsReadyForQuery, SpellsNotificationResponse, SpellsParameterDescription, SpellsRowDescription, SpellsDataRow, status_byte, codes, codes_fault, is_refused, row_description, data_row, notification_response, is_notification_refused, SpellsInfoResponse, info_response_of};
ghost use Rattle.pgw_query.specs.declared.notification.NotificationResponse.{NotificationResponse as TheNotification};
ghost use Rattle.pgw_query.specs.declared.description.ParameterDescription.{ParameterDescription as TheParameters};
ghost use Rattle.pgw_query.specs.declared.data.RowDescription.{RowDescription as TheRowDescription};
ghost use Rattle.pgw_query.specs.declared.data.DataRow.{DataRow as TheDataRow};
ghost use Rattle.pgw_query.specs.declared.tag.Tag.{Tag as TheTag};
ghost use Rattle.pgw_query.specs.Tags.{IsWord, AreCounts, tag_of, tag_text};
ghost use Rattle.pgw_query.specs.Sound.{AreFields, AreCoded, IsDataRow, IsParameterDescription, IsNotification};
ghost use Rattle.pgw_wire.specs.declared.limits.TheConstants.{LARGE_LIMIT, LONG_LIMIT, SMALL_BACKEND_LIMIT};

/// What is read at the front of some bytes is spelled so, and what is spelled so is read, whatever follows it.
pub fn rows_are_exact()
    ensures query { (ctx : TheContext) → IsRow 81 LARGE_LIMIT (query_of ctx) SpellsQuery }
    ensures command_complete { (ctx : TheContext) →
        IsRow 67 SMALL_BACKEND_LIMIT (command_complete_of ctx) SpellsCommandComplete }
    ensures ready_for_query { (ctx : TheContext) →
        IsRow 90 SMALL_BACKEND_LIMIT (ready_for_query_of ctx) SpellsReadyForQuery }
    ensures info_response { (byte : ℕ) (ctx : TheContext) →
        IsRow byte LONG_LIMIT (info_response_of byte ctx) SpellsInfoResponse }
    ensures notification_response { (ctx : TheContext) →
        IsRow 65 LONG_LIMIT (notification_response_of ctx) SpellsNotificationResponse }
    ensures parameter_description { (ctx : TheContext) →
        IsRow 116 LONG_LIMIT (parameter_description_of ctx) SpellsParameterDescription }
    ensures row_description { (ctx : TheContext) →
        IsRow 84 LONG_LIMIT (row_description_of ctx) SpellsRowDescription }
    ensures data_row { (ctx : TheContext) → IsRow 68 LONG_LIMIT (data_row_of ctx) SpellsDataRow }
{}

/// What is written of a message spells it. The others have no body.
pub fn what_is_written_is_spelled()
    ensures query { (m : TheQuery) (g : List ℕ) → IsUtf8 m.query →
        encoded (Typed 81) LARGE_LIMIT (refused_if (has_zero m.query)) (text m.query) ≡ Ok g →
        SpellsTyped 81 LARGE_LIMIT SpellsQuery m g }
    ensures command_complete { (m : TheCommandComplete) (g : List ℕ) → IsUtf8 m.tag →
        encoded (Typed 67) SMALL_BACKEND_LIMIT (refused_if (has_zero m.tag)) (text m.tag) ≡ Ok g →
        SpellsTyped 67 SMALL_BACKEND_LIMIT SpellsCommandComplete m g }
    ensures ready_for_query { (m : TheReadyForQuery) (g : List ℕ) →
        encoded (Typed 90) SMALL_BACKEND_LIMIT None (status_byte m.status ∷ []) ≡ Ok g →
        SpellsTyped 90 SMALL_BACKEND_LIMIT SpellsReadyForQuery m g }
    ensures info_response { (byte : ℕ) (m : TheInfoResponse byte) (g : List ℕ) → AreCoded m.fields →
        encoded (Typed byte) LONG_LIMIT (codes_fault m.fields) (codes m.fields) ≡ Ok g →
        SpellsTyped byte LONG_LIMIT SpellsInfoResponse m g }
    ensures notification_response { (m : TheNotification) (g : List ℕ) → IsNotification m →
        encoded (Typed 65) LONG_LIMIT (refused_if (is_notification_refused m))
        (notification_response m) ≡ Ok g → SpellsTyped 65 LONG_LIMIT SpellsNotificationResponse m
        g }
    ensures parameter_description { (m : TheParameters) (g : List ℕ) → IsParameterDescription m →
        encoded (Typed 116) LONG_LIMIT (refused_if (is_too_long m.types)) (counted16 u32 m.types)
        ≡ Ok g → SpellsTyped 116 LONG_LIMIT SpellsParameterDescription m g }
    ensures row_description { (m : TheRowDescription) (g : List ℕ) → AreFields m.fields →
        encoded (Typed 84) LONG_LIMIT (refused_if (is_refused m.fields)) (row_description m)
        ≡ Ok g → SpellsTyped 84 LONG_LIMIT SpellsRowDescription m g }
    ensures data_row { (m : TheDataRow) (g : List ℕ) → IsDataRow m →
        encoded (Typed 68) LONG_LIMIT None (data_row m) ≡ Ok g →
        SpellsTyped 68 LONG_LIMIT SpellsDataRow m g }
{}

/// A tag of one word, with no counts, with rows, or with an object and rows, comes back from its text.
pub fn tags_come_back()
    ensures { (tag : TheTag) → IsWord tag.command → AreCounts tag.oid tag.rows →
        tag_of (tag_text tag) ≡ tag }
{}
