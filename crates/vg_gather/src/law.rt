//! What recipes promise of operands.

ghost use Rattle.vg_gather.specs.Laws.{ConstantsFill, ConstantsFit, HoldersFill, HoldersFit, HoldersGive, InsertsFill, PlansCountRecipes, PlansTakeGiven, RecipesCostThePlan, RecipesInsertThePlan, RecipesTakeGiven};

/// A law that costs nothing to call: a register of the constants of a sound operand, with the values
/// that it wants put in, fills it.
pub fn inserts_fill()
    ensures { InsertsFill }
{}

/// A law: where no slot of a sound operand wants a value, a register of its constants fills it.
pub fn constants_fill()
    ensures { ConstantsFill }
{}

/// A law: a register that has the values of a pack fills each operand that the pack holds.
pub fn holders_fill()
    ensures { HoldersFill }
{}

/// A law: a pack that holds an operand gives a value that the operand wants.
pub fn holders_give()
    ensures { HoldersGive }
{}

/// A law: the recipe of an operand costs what the plan counts for it.
pub fn recipes_cost_the_plan()
    ensures { RecipesCostThePlan }
{}

/// A law: the recipe of an operand inserts what the plan inserts into it.
pub fn recipes_insert_the_plan()
    ensures { RecipesInsertThePlan }
{}

/// A law: where descriptions are sound, the packs that the recipe of a sound operand takes give values
/// that the operand wants.
pub fn recipes_take_given()
    ensures { RecipesTakeGiven }
{}

/// A law: the plan of packs counts the recipes of their operands, each for what it costs and inserts.
pub fn plans_count_recipes()
    ensures { PlansCountRecipes }
{}

/// A law: where descriptions and operands are sound, the recipes of the operands of packs take what
/// stands in registers before.
pub fn plans_take_given()
    ensures { PlansTakeGiven }
{}

/// A law: the constants of a sound operand are those of a register as wide as the operand.
pub fn constants_fit()
    ensures { ConstantsFit }
{}

/// A law: the register of a pack is as wide as each operand that the pack holds.
pub fn holders_fit()
    ensures { HoldersFit }
{}
