//! What holds of the messages of the extended query. Those without a body have their rows from `pgw_wire::empty`.
ghost use Rattle.std.specs.Prelude.{◌≡◌, ◌∷◌, ◌++◌, ℕ, List, Ok};
ghost use Rattle.pgw_wire.specs.declared.framing.Framing.TheVariants.{Typed};
ghost use Rattle.pgw_wire.specs.Framing.{encoded};
ghost use Rattle.pgw_wire.specs.Writing.{i32, refused_if};
ghost use Rattle.pgw_wire.specs.Formats.{IsRow, SpellsTyped};
ghost use Rattle.pgw_types.specs.declared.context.DecodeContext.{DecodeContext as TheContext};
ghost use Rattle.pgw_ext.specs.declared.parse.Parse.{Parse as TheParse};
ghost use Rattle.pgw_ext.specs.declared.bind.Bind.{Bind as TheBind};
ghost use Rattle.pgw_ext.specs.declared.target.Close.{Close as TheClose};
ghost use Rattle.pgw_ext.specs.declared.target.Describe.{Describe as TheDescribe};
ghost use Rattle.pgw_ext.specs.declared.execute.Execute.{Execute as TheExecute};
ghost use Rattle.pgw_ext.specs.Kinds.{name, is_name_refused};
ghost use Rattle.pgw_ext.specs.Sound.{IsParse, IsBind, IsClose, IsDescribe, IsExecute};
ghost use Rattle.pgw_ext.specs.Rows.{parse, is_parse_refused, bind, is_bind_refused, parse_of, bind_of, close_of, describe_of, execute_of, SpellsParse, SpellsBind, SpellsClose, SpellsDescribe, SpellsExecute};
ghost use Rattle.pgw_wire.specs.declared.limits.TheConstants.{LARGE_LIMIT, SMALL_LIMIT};

/// What is read at the front of some bytes is spelled so, and what is spelled so is read, whatever follows it.
pub fn rows_are_exact()
    ensures parse { (ctx : TheContext) → IsRow 80 LARGE_LIMIT (parse_of ctx) SpellsParse }
    ensures bind { (ctx : TheContext) → IsRow 66 LARGE_LIMIT (bind_of ctx) SpellsBind }
    ensures close { (ctx : TheContext) → IsRow 67 SMALL_LIMIT (close_of ctx) SpellsClose }
    ensures describe { (ctx : TheContext) → IsRow 68 SMALL_LIMIT (describe_of ctx) SpellsDescribe }
    ensures execute { (ctx : TheContext) → IsRow 69 SMALL_LIMIT (execute_of ctx) SpellsExecute }
{}

/// What is written of a message spells it. The others have no body.
pub fn what_is_written_is_spelled()
    ensures parse { (m : TheParse) (g : List ℕ) → IsParse m →
        encoded (Typed 80) LARGE_LIMIT (refused_if (is_parse_refused m)) (parse m) ≡ Ok g →
        SpellsTyped 80 LARGE_LIMIT SpellsParse m g }
    ensures bind { (m : TheBind) (g : List ℕ) → IsBind m →
        encoded (Typed 66) LARGE_LIMIT (refused_if (is_bind_refused m)) (bind m) ≡ Ok g →
        SpellsTyped 66 LARGE_LIMIT SpellsBind m g }
    ensures close { (m : TheClose) (g : List ℕ) → IsClose m →
        encoded (Typed 67) SMALL_LIMIT (refused_if (is_name_refused m.name))
        (m.target_type ∷ name m.name)
        ≡ Ok g → SpellsTyped 67 SMALL_LIMIT SpellsClose m g }
    ensures describe { (m : TheDescribe) (g : List ℕ) → IsDescribe m →
        encoded (Typed 68) SMALL_LIMIT (refused_if (is_name_refused m.name))
        (m.target_type ∷ name m.name)
        ≡ Ok g → SpellsTyped 68 SMALL_LIMIT SpellsDescribe m g }
    ensures execute { (m : TheExecute) (g : List ℕ) → IsExecute m →
        encoded (Typed 69) SMALL_LIMIT (refused_if (is_name_refused m.name))
        (name m.name ++ i32 m.max_rows) ≡ Ok g → SpellsTyped 69 SMALL_LIMIT SpellsExecute m g }
{}
