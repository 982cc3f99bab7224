//! Theorems about enabling.

ghost use Rattle.std.specs.Prelude.{◌≡◌, ◌⊎◌, ℕ, List, [], true};
ghost use Rattle.um_install.specs.Enabled.{Obeys, IsFoundByName, IsUndone, HasNoAlias};
ghost use Rattle.um_model.specs.Install.{Installs, RefusesInstall, IsEnabledAs, paths_beyond};
ghost use Rattle.um_model.specs.Names.{is_unit_name};
ghost use Rattle.um_model.specs.Refusals.{Refused};
ghost use Rattle.um_model.specs.Profiles.{ReadTree, read_by};
ghost use Rattle.um_model.specs.Tree.{Tree};
ghost use Rattle.um_model.specs.Units.{LoadedUnit};
ghost use Rattle.um_model.specs.declared.install.Enabling.{Enabling};
ghost use Rattle.um_model.specs.declared.install.InstallVerb.{InstallVerb};
ghost use Rattle.um_model.specs.declared.install.InstallVerb.TheVariants as verbs;

/// Each verb, of a tree and a unit, is refused for one cause or makes one tree.
pub fn each_verb_has_one_outcome()
    ensures there { (tree : ReadTree) (verb : InstallVerb) (unit : List ℕ) → ((r : Refused) × RefusesInstall tree verb unit r)
        ⊎ (((r : Refused) → ¬ RefusesInstall tree verb unit r) × ((u : Tree) × Installs tree verb unit u)) }
    ensures tree { (tree : ReadTree) (verb : InstallVerb) (unit : List ℕ) (u v : Tree) → Installs tree verb unit u → Installs tree verb unit v → u ≡ v }
    ensures cause { (tree : ReadTree) (verb : InstallVerb) (unit : List ℕ) (r q : Refused) → RefusesInstall tree verb unit r → RefusesInstall tree verb unit q → r ≡ q }
{}

/// A unit is enabled in one way.
pub fn a_unit_is_enabled_in_one_way()
    ensures there { (tree : ReadTree) (asked : List ℕ) → (answer : Enabling) × IsEnabledAs tree asked answer }
    ensures one { (tree : ReadTree) (asked : List ℕ) (a b : Enabling) → IsEnabledAs tree asked a → IsEnabledAs tree asked b → a ≡ b }
{}

/// Disabling undoes enabling, by whatever profile the tree is read then: of a unit under its own name no link is left that its [Install]
/// section requests.
pub fn disabling_undoes_enabling()
    ensures { (tree : ReadTree) (asked file : List ℕ) (l : LoadedUnit) → IsFoundByName tree asked file l → (u : ReadTree) (v : Tree)
        → Obeys tree verbs.Enable asked u.entries → Installs u verbs.Disable asked v → IsUndone l asked file v }
{}

/// Enabling a unit a second time isn't refused and makes nothing, if no unit that is taken requests another name: such a name may lead to
/// other units the second time.
pub fn enabling_twice_makes_nothing()
    ensures free { (tree : ReadTree) (asked : List ℕ) (u : Tree) → is_unit_name asked ≡ true → HasNoAlias tree asked → Obeys tree verbs.Enable asked u
        → Obeys (read_by tree.profile u) verbs.Enable asked u }
    ensures nothing { (tree : ReadTree) (asked : List ℕ) (u w : Tree) → is_unit_name asked ≡ true → HasNoAlias tree asked → Obeys tree verbs.Enable asked u
        → Installs (read_by tree.profile u) verbs.Enable asked w → paths_beyond u w ≡ [] }
{}
