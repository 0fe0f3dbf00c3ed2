//! The judging of expressions: what they are, and whether they keep the rules.
//!
//! An expression has a fact, and the facts of its parts follow it, from left to right. The parts are judged first, and
//! the first broken rule among them is the answer. The globals without a written type need a judgment that never
//! refuses, before any body: `golf_check_names/src/forms.rt` is the evaluator for them and says why.

ghost use Rattle.std.specs.Prelude.{◌≡◌, ◌∷◌, None, map};
ghost use Rattle.golf_syntax_trees.specs.Spines.{left_of};
ghost use Rattle.golf_check_types.specs.Faults.{AnswersOrFault};
ghost use Rattle.golf_check_types.specs.Types.{with_layer as with_layer_of};
ghost use Rattle.golf_check_types.specs.Scopes.{meaning as meaning_of};
ghost use Rattle.golf_check_types.specs.Written.{write, pointer_to as pointer_to_of};
ghost use Rattle.golf_check_types.specs.Expressions.{used, given_by, facts_of, field_place as field_place_of};
ghost use Rattle.golf_check_types.specs.Expressions.{integer as integer_of, unary_judged, struct_literal};
ghost use Rattle.golf_check_types.specs.Expressions.{slice_literal as slice_literal_of, made as made_of};
ghost use Rattle.golf_check_types.specs.Expressions.{made_sized as made_sized_of};
ghost use Rattle.golf_check_types.specs.Calls.{plain_call as plain_call_of, finaliser_call as finaliser_call_of};
ghost use Rattle.golf_check_types.specs.Calls.{called_with};
ghost use Rattle.golf_check_types.specs.Judgments.{judge, judge_at, value_at, AnswersJudged};
ghost use Rattle.golf_check_bodies.specs.Spines.{after, after_index, after_call, after_binary};
ghost use Rattle.golf_check_bodies.specs.CheckerClauses.{Judges, JudgesWhole, GivesValue, GivesAnyKind, GivesAll, Puts};
ghost use Rattle.golf_check_bodies.specs.CheckerClauses.{with_facts};

use crate::checker::Checker;
use crate::facts::{fill, keep};
use golf_base::List;
use golf_check_operands::{
    all_fit, elements_fit, field_place, fields_differ, finalises, int_value, is_name, is_value,
    keeps_steady, made, made_sized, made_struct, made_sync, named, plain_type, pointer_to,
    rule_unless, select, sets_finaliser, value, without_package, written,
};
use golf_check_types::rules::{WRONG_CALL, WRONG_FINALISER, WRONG_LITERAL};
use golf_check_types::{
    Base, Fact, Given, Layer, Operand, TypeFault, meaning_at, value_of, with_layer,
};
use golf_syntax_trees::{BinaryOperator, Element, Expr, TypeExpr, UnaryOperator, spine};

impl Checker {
    /// Walks over an expression and returns what it is. Its fact and those of its parts are added.
    ///
    /// A loop follows the spine of left operands, since nothing bounds its length. The fact of an expression comes
    /// before those of its left operand, so places for all these facts are kept first.
    #[cycle(judging)]
    pub fn expression(&mut self, e: &Expr) -> Result<Operand, TypeFault>
        ensures { JudgesWhole result (judge e.now self.old.line self.old.scope) self.old self.new }
    {
        let (mut waiting, inner) = spine(self.alloc, e)?;
        keep(waiting.len(), &mut self.facts)?;
        let mut at = self.facts.len();
        self.facts.push(Fact::Part(0))?;
        let mut operand = self.innermost(inner)?;
        fill(self.alloc, at, &operand, &mut self.facts)?;
        while let Some(node) = waiting.pop() {
            at -= 1;
            operand = self.after_left(node, operand)?;
            fill(self.alloc, at, &operand, &mut self.facts)?;
        }
        Ok(operand)
    }

    // Judges an expression without a left operand. The facts of its parts are added.
    #[cycle(judging)]
    #[tactic(auto, unfolding(golf_check_types::specs::Judgments::judge, golf_syntax_trees::specs::Spines::left_of))]
    fn innermost(&mut self, e: &Expr) -> Result<Operand, TypeFault>
        requires { left_of e.now ≡ None }
        ensures { Judges result (judge e.now self.old.line self.old.scope) self.old self.new }
    {
        match e {
            Expr::Integer(digits) => self.integer(digits.as_slice()),
            Expr::Text(_) => Ok(value(self.alloc, Base::Text)),
            Expr::Name(name) => named(self.alloc, self.line, &self.scope, name.as_slice()),
            Expr::Parens(e) => Ok(without_package(self.expression(e.get())?)),
            Expr::StructLiteral(name, elements) => {
                self.composite_literal(name.as_slice(), elements.as_slice())
            }
            Expr::SyncLiteral(name) => {
                made_sync(self.alloc, self.line, &self.scope, name.as_slice())
            }
            Expr::SliceLiteral(t, es) => self.slice_literal(es.as_slice(), t.get()),
            Expr::EmptyLiteral => Ok(value(self.alloc, Base::Unit)),
            Expr::Make(t) => self.make(t.get()),
            Expr::MakeSized(t, e) => self.make_sized(t.get(), e.get()),
            Expr::New(name) => made_struct(self.alloc, self.line, &self.scope, name.as_slice()),
            Expr::NewSync(name) => made_sync(self.alloc, self.line, &self.scope, name.as_slice()),
            Expr::Selector(_, _) => unreachable!(),
            Expr::Index(_, _) => unreachable!(),
            Expr::Call(_, _) => unreachable!(),
            Expr::Unary(o, e) => self.unary(*o, e.get()),
            Expr::Binary(_, _, _) => unreachable!(),
        }
    }

    // Judges an expression after its left operand. The facts of its other parts are added.
    #[cycle(judging)]
    #[tactic(auto, unfolding(crate::specs::Spines::after))]
    fn after_left(&mut self, e: &Expr, left: Operand) -> Result<Operand, TypeFault>
        ensures { Judges result (after e.now self.old.line self.old.scope left) self.old self.new }
    {
        match e {
            Expr::Integer(_) => Ok(left),
            Expr::Text(_) => Ok(left),
            Expr::Name(_) => Ok(left),
            Expr::Parens(_) => Ok(left),
            Expr::StructLiteral(_, _) => Ok(left),
            Expr::SyncLiteral(_) => Ok(left),
            Expr::SliceLiteral(_, _) => Ok(left),
            Expr::EmptyLiteral => Ok(left),
            Expr::Make(_) => Ok(left),
            Expr::MakeSized(_, _) => Ok(left),
            Expr::New(_) => Ok(left),
            Expr::NewSync(_) => Ok(left),
            Expr::Selector(_, name) => {
                select(
                    self.alloc,
                    self.line,
                    &self.scope.file,
                    name.as_slice(),
                    left,
                )
            }
            Expr::Index(_, i) => self.index(left, i.get()),
            Expr::Call(_, xs) => self.call(&left, xs.as_slice()),
            Expr::Unary(_, _) => Ok(left),
            Expr::Binary(o, _, b) => self.binary(*o, left, b.get()),
        }
    }

    /// Walks over an expression that is used as a value, and returns what it gives.
    #[cycle(judging)]
    pub fn given(&mut self, e: &Expr) -> Result<Given, TypeFault>
        ensures { GivesValue result (judge e.now self.old.line self.old.scope) self.old self.new }
    {
        let operand = self.expression(e)?;
        is_value(self.line, &operand)?;
        Ok(value_of(self.alloc, operand))
    }

    /// Walks over an expression that can be a name of any kind, such as a callee, and returns what it is.
    #[cycle(judging)]
    pub fn name_or_value(&mut self, e: &Expr) -> Result<Operand, TypeFault>
        ensures { GivesAnyKind result (judge e.now self.old.line self.old.scope) self.old self.new }
    {
        let operand = self.expression(e)?;
        is_name(self.line, &operand)?;
        Ok(operand)
    }

    // Returns what each expression gives as a value.
    #[cycle(judging)]
    fn all_given(&mut self, es: &[Expr]) -> Result<List<Given>, TypeFault>
        ensures { GivesAll result (map (judge_at self.old.line self.old.scope) es.now) self.old self.new }
    {
        let mut values = List::new(self.alloc);
        for e in es {
            values.push(self.given(e)?)?;
        }
        Ok(values)
    }

    // Returns what is given for each field of the struct to which a pointer refers. The place of the field is added
    // before the facts of its value.
    #[cycle(judging)]
    fn all_put(
        &mut self,
        base: Option<Base>,
        elements: &[Element],
    ) -> Result<List<Given>, TypeFault>
        ensures { Puts base (map (λ e. e.field) elements.now) result (map (value_at self.old.line self.old.scope) elements.now) self.old self.new }
    {
        let mut values = List::new(self.alloc);
        for e in elements {
            values.push(self.put(base, e)?)?;
        }
        Ok(values)
    }

    // Returns what is given for one field.
    #[cycle(judging)]
    fn put(&mut self, base: Option<Base>, element: &Element) -> Result<Given, TypeFault>
        ensures { AnswersOrFault result (used self.old.line (value_at self.old.line self.old.scope element.now)) (λ v. (v ≡ given_by (value_at self.old.line self.old.scope element.now)) × (self.new ≡ with_facts self.old (Fact.Field (field_place_of self.old.scope.file base element.now.field) ∷ facts_of (value_at self.old.line self.old.scope element.now)))) }
    {
        let place = field_place(&self.scope.file, base, element.field.as_slice());
        self.facts.push(Fact::Field(place))?;
        self.given(&element.value)
    }

    // Judges an integer literal. The fact of its value is added.
    fn integer(&mut self, digits: &[u8]) -> Result<Operand, TypeFault>
        ensures { Judges result (integer_of self.old.line digits.now) self.old self.new }
    {
        let number = int_value(self.line, digits)?;
        self.facts.push(Fact::Number(number))?;
        Ok(value(self.alloc, Base::Int))
    }

    // `&T{f: e, ..}`
    #[cycle(judging)]
    fn composite_literal(&mut self, name: &[u8], elements: &[Element]) -> Result<Operand, TypeFault>
        ensures { Judges result (struct_literal self.old.line self.old.scope.file (pointer_to_of (meaning_of self.old.scope name.now)) (map (λ e. e.field) elements.now) (map (value_at self.old.line self.old.scope) elements.now)) self.old self.new }
    {
        let base = pointer_to(meaning_at(self.alloc, &self.scope, name)?);
        let values = self.all_put(base, elements)?;
        let file = &self.scope.file;
        all_fit(
            self.alloc,
            self.line,
            file,
            base,
            elements,
            values.as_slice(),
        )?;
        let differ = fields_differ(self.alloc, file, base, elements)?;
        self.require(WRONG_LITERAL, base.is_some() && differ)?;
        Ok(Operand::Value(plain_type(self.alloc, base)))
    }

    // `[]T{e, ..}`
    #[cycle(judging)]
    fn slice_literal(&mut self, es: &[Expr], t: &TypeExpr) -> Result<Operand, TypeFault>
        ensures { Judges result (slice_literal_of self.old.line (write t.now self.old.line self.old.scope) (with_layer_of Layer.Slice (write t.now self.old.line self.old.scope).type) (map (judge_at self.old.line self.old.scope) es.now)) self.old self.new }
    {
        let of_type = written(self.alloc, self.line, &self.scope, t)?;
        let values = self.all_given(es)?;
        elements_fit(self.line, values.as_slice(), &of_type)?;
        Ok(Operand::Value(with_layer(self.alloc, Layer::Slice, of_type)?))
    }

    // `make(T)`
    fn make(&self, t: &TypeExpr) -> Result<Operand, TypeFault>
        ensures { AnswersJudged result (made_of self.now.line (write t.now self.now.line self.now.scope)) }
    {
        let of_type = written(self.alloc, self.line, &self.scope, t)?;
        made(self.alloc, self.line, of_type)
    }

    // `make(T, e)`
    #[cycle(judging)]
    fn make_sized(&mut self, t: &TypeExpr, e: &Expr) -> Result<Operand, TypeFault>
        ensures { Judges result (made_sized_of self.old.line (write t.now self.old.line self.old.scope) (judge e.now self.old.line self.old.scope)) self.old self.new }
    {
        let of_type = written(self.alloc, self.line, &self.scope, t)?;
        let size = self.given(e)?;
        made_sized(self.alloc, self.line, of_type, &size)
    }

    // Judges an index, after the slice.
    #[cycle(judging)]
    fn index(&mut self, slice: Operand, i: &Expr) -> Result<Operand, TypeFault>
        ensures { Judges result (after_index self.old.line slice (judge i.now self.old.line self.old.scope)) self.old self.new }
    {
        is_value(self.line, &slice)?;
        let x = value_of(self.alloc, slice);
        let y = self.given(i)?;
        golf_check_operands::index(self.line, x, y)
    }

    // Judges a unary operator with its operand.
    #[cycle(judging)]
    fn unary(&mut self, operator: UnaryOperator, e: &Expr) -> Result<Operand, TypeFault>
        ensures { Judges result (unary_judged self.old.line self.old.scope operator (judge e.now self.old.line self.old.scope)) self.old self.new }
    {
        let x = self.given(e)?;
        golf_check_operands::unary(self.alloc, self.line, &self.scope, operator, x)
    }

    // Judges a binary operator with its second operand, after the first one.
    #[cycle(judging)]
    fn binary(
        &mut self,
        operator: BinaryOperator,
        left: Operand,
        b: &Expr,
    ) -> Result<Operand, TypeFault>
        ensures { Judges result (after_binary self.old.line operator left (judge b.now self.old.line self.old.scope)) self.old self.new }
    {
        is_value(self.line, &left)?;
        let x = value_of(self.alloc, left);
        let y = self.given(b)?;
        golf_check_operands::binary(self.alloc, self.line, operator, x, y)
    }

    // Judges the arguments of a call, after the callee.
    #[cycle(judging)]
    fn call(&mut self, f: &Operand, xs: &[Expr]) -> Result<Operand, TypeFault>
        ensures { Judges result (after_call self.old.line self.old.scope f.now (map (judge_at self.old.line self.old.scope) xs.now)) self.old self.new }
    {
        is_name(self.line, f)?;
        self.called(f, xs)
    }

    /// Judges a call of an operand that can be a name of any kind, and returns what the call gives.
    #[cycle(judging)]
    pub fn called(&mut self, f: &Operand, xs: &[Expr]) -> Result<Operand, TypeFault>
        ensures { Judges result (called_with self.old.line self.old.scope f.now (map (judge_at self.old.line self.old.scope) xs.now)) self.old self.new }
    {
        if sets_finaliser(f) {
            self.finaliser_call(f, xs)
        } else {
            self.plain_call(f, xs)
        }
    }

    // Judges the arguments of a call that is no `SetFinalizer`.
    #[cycle(judging)]
    fn plain_call(&mut self, f: &Operand, xs: &[Expr]) -> Result<Operand, TypeFault>
        ensures { Judges result (plain_call_of self.old.line self.old.scope f.now (map (judge_at self.old.line self.old.scope) xs.now)) self.old self.new }
    {
        let values = self.all_given(xs)?;
        keeps_steady(self.line, self.scope.initialises, f)?;
        golf_check_operands::call(
            self.alloc,
            self.line,
            &self.scope.file,
            f,
            values.as_slice(),
        )
    }

    // Judges the arguments of `SetFinalizer`. The second one can be a name of any kind.
    #[cycle(judging)]
    fn finaliser_call(&mut self, f: &Operand, xs: &[Expr]) -> Result<Operand, TypeFault>
        ensures { Judges result (finaliser_call_of self.old.line self.old.scope f.now (map (judge_at self.old.line self.old.scope) xs.now)) self.old self.new }
    {
        match xs {
            [x, y, rest @ ..] => self.finaliser_with(f, rest, x, y),
            _ => {
                self.all_given(xs)?;
                keeps_steady(self.line, self.scope.initialises, f)?;
                Err(TypeFault::At {
                    line: self.line,
                    rule: WRONG_CALL,
                })
            }
        }
    }

    // Judges the same with at least two arguments.
    #[cycle(judging)]
    fn finaliser_with(
        &mut self,
        f: &Operand,
        rest: &[Expr],
        x: &Expr,
        y: &Expr,
    ) -> Result<Operand, TypeFault>
        ensures { Judges result (finaliser_call_of self.old.line self.old.scope f.now (judge_at self.old.line self.old.scope x.now ∷ (judge_at self.old.line self.old.scope y.now ∷ map (judge_at self.old.line self.old.scope) rest.now))) self.old self.new }
    {
        let given = self.given(x)?;
        let finaliser = self.name_or_value(y)?;
        self.all_given(rest)?;
        keeps_steady(self.line, self.scope.initialises, f)?;
        self.require(WRONG_CALL, rest.is_empty())?;
        let holds = finalises(&self.scope.file, &given, &finaliser);
        Ok(Operand::Nothing(rule_unless(WRONG_FINALISER, holds)))
    }
}
