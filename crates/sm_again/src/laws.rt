// What is written for a model loads to it again. These calls do nothing: their contracts are the laws.
ghost use Rattle.sm_again.specs.LoadsAgain.{AstLoads, IdlLoads, SameStatements};

/// The text of a model in the JSON AST, as the one file, loads to the model: to its graph, with its events.
pub fn ast_loads()
    ensures { AstLoads }
{
    sm_ast::laws::written_is_json();
    sm_ast::laws::written_says();
    sm_json::laws::written_spells();
    sm_load::laws::formed_files();
}

/// The texts of all namespaces of a model in the IDL, each a file, load to the model.
pub fn idl_loads()
    ensures { IdlLoads }
{
    sm_load::laws::formed_files();
    sm_load::laws::sound_without_errors();
}

/// Files that say the same statements in the same order load to the same.
pub fn same_statements_load()
    ensures { SameStatements }
{
    sm_load::laws::formed_files();
    sm_merge::laws::one_file_or_several();
}
