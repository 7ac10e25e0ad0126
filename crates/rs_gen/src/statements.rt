ghost use Rattle.std.specs.Prelude.{◌≡◌, IfOk};
ghost use Rattle.rs_gen.specs.Script.{script_text};

use rs_value::Memory;
use std::alloc::Global;

/// The statements, each on a line of its own: the tables, predicates of three costs, an index for the two cheaper ones, the
/// best ten places for a day in one city, and the plan that finds them, with what its nodes did.
const SCRIPT: &str = "\
    CREATE TABLE hotel (name TEXT, price INT, city INT) FROM 'hotel.csv';\n\
    CREATE TABLE restaurant (name TEXT, city INT, rating INT) FROM 'restaurant.csv';\n\
    CREATE TABLE museum (name TEXT, city INT, fame INT) FROM 'museum.csv';\n\
    CREATE PREDICATE cheap (price INT) MAX 300 COST 2 AS 340 - price;\n\
    CREATE PREDICATE tasty (rating INT) MAX 100 AS rating;\n\
    CREATE PREDICATE famous (fame INT) MAX 200 COST 50 AS fame;\n\
    CREATE RANK INDEX hotel_cheap ON hotel (cheap(price));\n\
    CREATE RANK INDEX restaurant_tasty ON restaurant (tasty(rating));\n\
    SELECT h.name, r.name, m.name FROM hotel h, restaurant r, museum m \
    WHERE h.city = r.city AND r.city = m.city \
    ORDER BY cheap(h.price) + 3 * tasty(r.rating) + 2 * famous(m.fame) LIMIT 10;\n\
    EXPLAIN ANALYZE SELECT h.name, r.name, m.name FROM hotel h, restaurant r, museum m \
    WHERE h.city = r.city AND r.city = m.city \
    ORDER BY cheap(h.price) + 3 * tasty(r.rating) + 2 * famous(m.fame) LIMIT 10;\n";

/// The bytes of the script.
pub fn script(alloc: Global) -> Result<Vec<u8>, Memory>
    ensures { IfOk result (λ bytes. bytes.items ≡ script_text) }
{
    Ok(Vec::from_slice(alloc, SCRIPT.as_bytes())?)
}
