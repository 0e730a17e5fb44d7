//! Laws of what a running stream keeps true: theorems about the definitions alone. The functions do
//! nothing.

ghost use Rattle.std.specs.Prelude.{◌≡◌, ◌≢◌, List, [], ℕ, Ok, Err};
ghost use Rattle.git_model.specs.{RefStore.{no_refs}, Repository.{Repository}};
ghost use Rattle.git_names.specs.Naming.{AnswersNames};
ghost use Rattle.stream_grammar.specs.{Acts.{Act}, Commands.{Done, done_by}};
ghost use Rattle.stream_commands.specs.Workspace.{Workspace, Effect, opened};
ghost use Rattle.import_session.specs.Stream.{Running, Step, begun, step, session_end};
ghost use Rattle.import_session.specs.{Stream.{last_checkpoint}, Commits.{closed_where}};
ghost use Rattle.import_session.specs.{Meaning.{after_act}, Sound.{IsSound, IsSoundRepository}};
ghost use Rattle.session_laws.specs.Fitting.{Fits, IsInStep};
ghost use Rattle.stream_lex.specs.Items as items;
ghost use Rattle.stream_grammar.specs.declared.fault.Fault.TheVariants as text_fault;
ghost use Rattle.stream_parts.specs.declared.fault.Fault.TheVariants as fault;

/// A stream may open on a repository with no objects and no refs.
pub fn an_empty_repository_is_sound()
    ensures { (digest : List ℕ → List ℕ)
        → IsSoundRepository digest (record { objects = []; refs = no_refs }) }
{}

/// A stream that opens on a sound repository is sound.
pub fn a_new_stream_is_sound()
    ensures { (digest : List ℕ → List ℕ) (repository : Repository)
        → IsSoundRepository digest repository → IsSound digest (opened repository) }
{}

/// Each item that is taken keeps a stream sound.
pub fn each_item_keeps_it()
    ensures { (digest : List ℕ → List ℕ) → AnswersNames digest
        → (now : Running) (item : items.Item) (next : Step)
        → IsSound digest now.workspace → step digest now item ≡ Ok next
        → IsSound digest next.running.workspace }
{}

/// The end of a stream keeps it sound.
pub fn each_end_keeps_it()
    ensures { (digest : List ℕ → List ℕ) → AnswersNames digest
        → (now : Running) (effect : Effect)
        → IsSound digest now.workspace → session_end digest now ≡ Ok effect
        → IsSound digest effect.workspace }
{}

/// A checkpoint of a sound stream leaves a sound repository.
pub fn each_checkpoint_is_sound()
    ensures { (digest : List ℕ → List ℕ) (workspace : Workspace)
        → IsSound digest workspace → IsSoundRepository digest (last_checkpoint workspace) }
{}

/// A new stream is in step: neither the parser nor the workspace has a command open.
pub fn a_new_stream_is_in_step()
    ensures { (repository : Repository) → IsInStep (begun (opened repository)) }
{}

/// Each item that is taken keeps the parser and the workspace in step.
pub fn each_item_keeps_step()
    ensures { (digest : List ℕ → List ℕ) (now : Running) (item : items.Item) (next : Step)
        → IsInStep now → step digest now item ≡ Ok next → IsInStep next.running }
{}

/// No act comes where its command is not open. An act fits the workspace in which it is carried
/// out, after the end of the open commit if the item ends it.
pub fn each_act_fits()
    ensures { (digest : List ℕ → List ℕ) (now : Running) (item : items.Item) (done : Done)
        (workspace : Workspace) → IsInStep now → done_by now.parsing item ≡ Ok done
        → closed_where digest done.ends_commit now.workspace ≡ Ok workspace
        → Fits done.act workspace }
{}

/// An act that fits the workspace is not refused as no command (2).
pub fn no_fitting_act_is_unknown()
    ensures { (digest : List ℕ → List ℕ) (act : Act) (workspace : Workspace) → Fits act workspace
        → after_act digest act workspace ≢ Err (fault.Text text_fault.UnknownCommand) }
{}
