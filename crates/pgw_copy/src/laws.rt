//! What holds of the messages of COPY. Those without a body have their rows from `pgw_wire::empty`.
ghost use Rattle.std.specs.Prelude.{◌≡◌, ℕ, List, None, Ok};
ghost use Rattle.pgw_wire.specs.declared.framing.Framing.TheVariants.{Typed};
ghost use Rattle.pgw_wire.specs.Framing.{encoded};
ghost use Rattle.pgw_wire.specs.Writing.{text, has_zero, refused_if};
ghost use Rattle.pgw_wire.specs.Formats.{IsRow, SpellsTyped};
ghost use Rattle.pgw_types.specs.declared.context.DecodeContext.{DecodeContext as TheContext};
ghost use Rattle.pgw_copy.specs.declared.data.CopyData.{CopyData as TheCopyData};
ghost use Rattle.pgw_copy.specs.declared.data.CopyFail.{CopyFail as TheCopyFail};
ghost use Rattle.pgw_copy.specs.declared.response.CopyResponse.{CopyResponse as TheCopyResponse};
ghost use Rattle.pgw_copy.specs.Sound.{IsCopyFail, AreColumns};
ghost use Rattle.pgw_copy.specs.Rows.{formats, is_miscounted, copy_data_of, SpellsCopyData, copy_fail_of, SpellsCopyFail, copy_response_of, SpellsCopyResponse};
ghost use Rattle.pgw_wire.specs.declared.limits.TheConstants.{LARGE_LIMIT, SMALL_BACKEND_LIMIT, SMALL_LIMIT};

/// What is read at the front of some bytes is spelled so, and what is spelled so is read, whatever follows it.
pub fn rows_are_exact()
    ensures copy_data { (ctx : TheContext) → IsRow 100 LARGE_LIMIT (copy_data_of ctx)
        SpellsCopyData }
    ensures copy_fail { (ctx : TheContext) →
        IsRow 102 SMALL_LIMIT (copy_fail_of ctx) SpellsCopyFail }
    ensures copy_response { (byte : ℕ) (ctx : TheContext) →
        IsRow byte SMALL_BACKEND_LIMIT (copy_response_of byte ctx) SpellsCopyResponse }
{}

/// What is written of a message spells it. CopyDone has no body.
pub fn what_is_written_is_spelled()
    ensures copy_data { (m : TheCopyData) (g : List ℕ) →
        encoded (Typed 100) LARGE_LIMIT None m.payload ≡ Ok g →
        SpellsTyped 100 LARGE_LIMIT SpellsCopyData m g }
    ensures copy_fail { (m : TheCopyFail) (g : List ℕ) → IsCopyFail m →
        encoded (Typed 102) SMALL_LIMIT (refused_if (has_zero m.message)) (text m.message) ≡ Ok g →
        SpellsTyped 102 SMALL_LIMIT SpellsCopyFail m g }
    ensures copy_response { (byte : ℕ) (m : TheCopyResponse byte) (g : List ℕ) →
        AreColumns m.format m.columns m.column_formats →
        encoded (Typed byte) SMALL_BACKEND_LIMIT
        (refused_if (is_miscounted m.columns m.column_formats))
        (formats m.format m.columns m.column_formats) ≡ Ok g →
        SpellsTyped byte SMALL_BACKEND_LIMIT SpellsCopyResponse m g }
{}
