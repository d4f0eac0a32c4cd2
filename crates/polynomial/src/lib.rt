// Monomials by key, terms, polynomials as formal sums, points and values: definitions in specs/, theorems in proofs/.
// No code.
#![tactic(auto)]
