//! Laws of the definitions in `specs/`: each function does nothing, and what it ensures holds of all edges and tables.
ghost use Rattle.std.specs.Prelude.{◌≡◌, ◌↔◌, ℕ, List, Some, None, IsTrue};
ghost use Rattle.own_base.specs.declared.number.TableNo.{TableNo};
ghost use Rattle.own_model.specs.declared.schema.Edge.{Edge};
ghost use Rattle.owner_model.specs.Acyclic.{IsAcyclic};
ghost use Rattle.owner_model.specs.AreWithin.{AreWithin};
ghost use Rattle.owner_model.specs.Cycle.{Cycle, IsCycle, cycle_of};
ghost use Rattle.owner_model.specs.GraphOrder.{IsGraphOrder};
ghost use Rattle.owner_model.specs.Leads.{leads};
ghost use Rattle.owner_model.specs.Walk.{Leads};

/// The test says that one table leads to another exactly where a walk of one edge or more does.
pub fn tables_lead_by_walks()
    ensures { (edges : List Edge) (from to : ℕ) → (IsTrue (leads edges from to)) ↔ (Leads edges from to) }
{}

/// Of edges between so many tables the two tables of a cycle are those that `cycle_of` gives.
pub fn cycle_of_is_the_cycle()
    ensures { (tables : ℕ) (edges : List Edge) (table through : ℕ) → AreWithin tables edges → IsCycle edges table through
        → cycle_of tables edges ≡ Some (record { table = table; through = through }) }
{}

/// What `cycle_of` gives of such edges is a cycle, and it gives none exactly where no walk closes.
pub fn cycle_of_tells_of_closed_walks()
    ensures told { (tables : ℕ) (edges : List Edge) (told : Cycle) → AreWithin tables edges → cycle_of tables edges ≡ Some told
        → IsCycle edges told.table told.through }
    ensures untold { (tables : ℕ) (edges : List Edge) → AreWithin tables edges → (cycle_of tables edges ≡ None) ↔ (IsAcyclic edges) }
{}

/// Where the tables have an order no walk comes back to its table, and `cycle_of` gives none.
pub fn ordered_edges_have_no_cycle()
    ensures untold { (tables : ℕ) (edges : List Edge) (order : List TableNo) → IsGraphOrder tables edges order
        → cycle_of tables edges ≡ None }
    ensures unclosed { (tables : ℕ) (edges : List Edge) (order : List TableNo) → IsGraphOrder tables edges order
        → (table : ℕ) → ¬ (Leads edges table table) }
{}
