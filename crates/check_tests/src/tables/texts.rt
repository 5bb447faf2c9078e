//! Names, the texts of leaves, directives and shorthands.

use crate::tables::Row;

pub const NAMES: &[Row] = &[
    (
        "(Program ~ [(ExpressionStatement (Identifier =))])",
        "/0/0 Name",
    ),
    (
        "(Program ~ [(ExpressionStatement (Identifier =a%0020b))])",
        "/0/0 Name",
    ),
    (
        "(Program ~ [(ExpressionStatement (Identifier =1a))])",
        "/0/0 Name",
    ),
    (
        "(Program ~ [(ExpressionStatement (Identifier =if))])",
        "/0/0 Name",
    ),
    (
        "(Program ~ [(ExpressionStatement (Identifier =let))])",
        "/0/0 Name",
    ),
    (
        "(Program ~ [(ExpressionStatement (Identifier =async))])",
        "ok",
    ),
    (
        "(Program ~ [(ExpressionStatement (Identifier =%d87e%dc00))])",
        "ok",
    ),
    (
        "(Program ~ [(ExpressionStatement (Identifier =%d87e))])",
        "/0/0 Name",
    ),
    (
        "(Program ~ [(ExpressionStatement (MemberExpression - - (Identifier =a) (Identifier \
         =if)))])",
        "ok",
    ),
    (
        "(Program ~ [(ExpressionStatement (ObjectExpression [(Property =init - - - (Identifier \
         =if) (Identifier =b))]))])",
        "ok",
    ),
    (
        "(Program ~ [(ClassDeclaration (Identifier =A) _ (ClassBody [(MethodDefinition =method - \
         - (Identifier =if) (FunctionExpression - - _ [] (BlockStatement [])))]))])",
        "ok",
    ),
    (
        "(Program ~ [(ClassDeclaration (Identifier =A) _ (ClassBody [(MethodDefinition =method - \
         - (PrivateIdentifier =if) (FunctionExpression - - _ [] (BlockStatement [])))]))])",
        "ok",
    ),
    (
        "(Program ~ [(ClassDeclaration (Identifier =A) _ (ClassBody [(MethodDefinition =method - \
         - (PrivateIdentifier =1) (FunctionExpression - - _ [] (BlockStatement [])))]))])",
        "/0/2/0/0 Name",
    ),
    (
        "(Program ~ [(ImportDeclaration [(ImportSpecifier - (Identifier =if) (Identifier =b))] \
         (Literal =string =m ~))])",
        "ok",
    ),
    (
        "(Program ~ [(ImportDeclaration [(ImportSpecifier - (Identifier =a) (Identifier =if))] \
         (Literal =string =m ~))])",
        "/0/0/1 Name",
    ),
    (
        "(Program ~ [(VariableDeclaration =var [(VariableDeclarator (Identifier =a) _) \
         (VariableDeclarator (Identifier =b) _)]) (ExportNamedDeclaration _ [(ExportSpecifier - \
         (Identifier =if) (Identifier =b))] _)])",
        "/1/1/0 Name",
    ),
    (
        "(Program ~ [(VariableDeclaration =var [(VariableDeclarator (Identifier =a) _) \
         (VariableDeclarator (Identifier =b) _)]) (ExportNamedDeclaration _ [(ExportSpecifier - \
         (Identifier =a) (Identifier =if))] _)])",
        "ok",
    ),
    (
        "(Program ~ [(ExportNamedDeclaration _ [(ExportSpecifier - (Identifier =if) (Identifier \
         =b))] (Literal =string =m ~))])",
        "ok",
    ),
    (
        "(Program ~ [(LabeledStatement (Identifier =yield) (ExpressionStatement (Identifier \
         =a)))])",
        "/0/0 Name",
    ),
    (
        "(Program ~ [(ExpressionStatement (FunctionExpression - - (Identifier =await) [] \
         (BlockStatement [])))])",
        "/0/0/0 Name",
    ),
];

pub const TEXTS: &[Row] = &[
    (
        "(Program ~ [(ExpressionStatement (Literal =number =1_0 ~))])",
        "ok",
    ),
    (
        "(Program ~ [(ExpressionStatement (Literal =number =1__0 ~))])",
        "/0/0 LiteralText",
    ),
    (
        "(Program ~ [(ExpressionStatement (Literal =number =017 ~))])",
        "ok",
    ),
    (
        "(Program ~ [(ExpressionStatement (Literal =number =%00201 ~))])",
        "/0/0 LiteralText",
    ),
    (
        "(Program ~ [(ExpressionStatement (Literal =number =1n ~))])",
        "/0/0 LiteralText",
    ),
    (
        "(Program ~ [(ExpressionStatement (Literal =bigint =1 ~))])",
        "/0/0 LiteralText",
    ),
    (
        "(Program ~ [(ExpressionStatement (Literal =bigint =0x1fn ~))])",
        "ok",
    ),
    (
        "(Program ~ [(ExpressionStatement (Literal =number = ~))])",
        "/0/0 LiteralText",
    ),
    (
        "(Program ~ [(ExpressionStatement (Literal =regexp = =))])",
        "/0/0 LiteralText",
    ),
    (
        "(Program ~ [(ExpressionStatement (Literal =regexp =a/b =))])",
        "/0/0 LiteralText",
    ),
    (
        "(Program ~ [(ExpressionStatement (Literal =regexp =%005b/%005d =))])",
        "ok",
    ),
    (
        "(Program ~ [(ExpressionStatement (Literal =regexp =%005b =%005d/g))])",
        "/0/0 LiteralText",
    ),
    (
        "(Program ~ [(ExpressionStatement (Literal =regexp =* =))])",
        "/0/0 LiteralText",
    ),
    (
        "(Program ~ [(ExpressionStatement (Literal =regexp =a =g%0020i))])",
        "/0/0 LiteralText",
    ),
    (
        "(Program ~ [(ExpressionStatement (Literal =regexp =a%000ab =))])",
        "/0/0 LiteralText",
    ),
    (
        "(Program ~ [(ExpressionStatement (Literal =regexp =%d800 =))])",
        "/0/0 LiteralText",
    ),
    (
        "(Program =a%2028b [(ExpressionStatement (Identifier =b))])",
        "/ LiteralText",
    ),
    ("(Program = [(ExpressionStatement (Identifier =b))])", "ok"),
    ("(Program ~ [(Directive =a)])", "ok"),
    (
        "(Program ~ [(ExpressionStatement (CallExpression - (Identifier =f) [(Literal =string \
         =%d800 ~)]))])",
        "ok",
    ),
    (
        "(Program ~ [(ExpressionStatement (TemplateLiteral [(TemplateElement =a`)] []))])",
        "/0/0/0 TemplateText",
    ),
    (
        "(Program ~ [(ExpressionStatement (TemplateLiteral [(TemplateElement =a%005c`)] []))])",
        "ok",
    ),
    (
        "(Program ~ [(ExpressionStatement (TemplateLiteral [(TemplateElement =$%007b)] []))])",
        "/0/0/0 TemplateText",
    ),
    (
        "(Program ~ [(ExpressionStatement (TemplateLiteral [(TemplateElement =%005c$%007b)] \
         []))])",
        "ok",
    ),
    (
        "(Program ~ [(ExpressionStatement (TemplateLiteral [(TemplateElement =$)] []))])",
        "ok",
    ),
    (
        "(Program ~ [(ExpressionStatement (TemplateLiteral [(TemplateElement =%005c)] []))])",
        "/0/0/0 TemplateText",
    ),
    (
        "(Program ~ [(ExpressionStatement (TemplateLiteral [(TemplateElement =%000d)] []))])",
        "/0/0/0 TemplateText",
    ),
    (
        "(Program ~ [(ExpressionStatement (TemplateLiteral [(TemplateElement =%005c%000d)] []))])",
        "/0/0/0 TemplateText",
    ),
    (
        "(Program ~ [(ExpressionStatement (TemplateLiteral [(TemplateElement =%dc00)] []))])",
        "/0/0/0 TemplateText",
    ),
    (
        "(Program ~ [(ExpressionStatement (TemplateLiteral [(TemplateElement =%005c01)] []))])",
        "/0/0/0 TemplateText",
    ),
    (
        "(Program ~ [(ExpressionStatement (TemplateLiteral [(TemplateElement \
         =%005cu%007b41%007d)] []))])",
        "ok",
    ),
    (
        "(Program ~ [(ExpressionStatement (TaggedTemplateExpression (Identifier =b) \
         (TemplateLiteral [(TemplateElement =%005c01)] [])))])",
        "ok",
    ),
    (
        "(Program ~ [(ExpressionStatement (TaggedTemplateExpression (Identifier =b) \
         (TemplateLiteral [(TemplateElement =%005c)] [])))])",
        "/0/0/1/0 TemplateText",
    ),
    (
        "(Program ~ [(ExpressionStatement (TaggedTemplateExpression (Identifier =b) \
         (TemplateLiteral [(TemplateElement =a) (TemplateElement =)] [(TemplateLiteral \
         [(TemplateElement =%005cu)] [])])))])",
        "/0/0/1/2/0 TemplateText",
    ),
];

pub const DIRECTIVES: &[Row] = &[
    (
        "(Program ~ [(Identifier =q) (Directive =use%0020strict)])",
        "/ Category",
    ),
    (
        "(Program ~ [(ExpressionStatement (Identifier =a)) (Directive =use%0020strict)])",
        "/1 Directive",
    ),
    (
        "(Program ~ [(Directive =a) (Directive =b) (ExpressionStatement (Identifier =c))])",
        "ok",
    ),
    ("(Program ~ [(Directive =a%0022b)])", "ok"),
    ("(Program ~ [(Directive =a%0022'b)])", "/0 Directive"),
    ("(Program ~ [(Directive =%005cx)])", "/0 Directive"),
    ("(Program ~ [(Directive =%d800)])", "/0 Directive"),
    ("(Program ~ [(Directive =%005c%0022')])", "ok"),
    (
        "(Program ~ [(BlockStatement [(Directive =b) (ExpressionStatement (Identifier =a))])])",
        "/0/0 Directive",
    ),
    (
        "(Program ~ [(FunctionDeclaration - - (Identifier =f) [] (BlockStatement [(Directive =b) \
         (ExpressionStatement (Identifier =a))]))])",
        "ok",
    ),
    (
        "(Program ~ [(ExpressionStatement (ArrowFunctionExpression - [] (BlockStatement \
         [(ExpressionStatement (Identifier =a)) (Directive =b)])))])",
        "/0/0/0/1 Directive",
    ),
    (
        "(Program ~ [(SwitchStatement (Identifier =a) [(SwitchCase (Identifier =b) [(Directive \
         =b) (ExpressionStatement (Identifier =c))])])])",
        "/0/1/1 Directive",
    ),
    (
        "(Program ~ [(ExpressionStatement (CallExpression - (Identifier =f) [(Directive =b) \
         (Identifier =a)]))])",
        "/0/0/1 Directive",
    ),
    (
        "(Program ~ [(IfStatement (Identifier =a) (Directive =b) _)])",
        "/0 Category",
    ),
    (
        "(Program ~ [(ClassDeclaration (Identifier =A) _ (ClassBody [(StaticBlock [(Directive =b) \
         (ExpressionStatement (Identifier =a))])]))])",
        "/0/2/0/0 Directive",
    ),
];

pub const SHORTHANDS: &[Row] = &[
    (
        "(Program ~ [(ExpressionStatement (CallExpression - (Identifier =f) [(ObjectExpression \
         [(Property =init - + - (Identifier =a) (Identifier =b))])]))])",
        "/0/0/1/0 Shorthand",
    ),
    (
        "(Program ~ [(ExpressionStatement (CallExpression - (Identifier =f) [(ObjectExpression \
         [(Property =init - + - (Identifier =a) (Literal =string =a ~))])]))])",
        "/0/0/1/0 Shorthand",
    ),
    (
        "(Program ~ [(ExpressionStatement (CallExpression - (Identifier =f) [(ObjectExpression \
         [(Property =init - + - (Literal =string =a ~) (Identifier =a))])]))])",
        "/0/0/1/0 Shorthand",
    ),
    (
        "(Program ~ [(ExpressionStatement (CallExpression - (Identifier =f) [(ObjectExpression \
         [(Property =init - + - _ (Identifier =a))])]))])",
        "/0/0/1/0 Missing",
    ),
    (
        "(Program ~ [(ExpressionStatement (AssignmentExpression == (ObjectPattern \
         [(AssignmentProperty + - (Identifier =a) (AssignmentPattern (Identifier =a) (Literal \
         =number =1 ~)))]) (Identifier =b)))])",
        "ok",
    ),
    (
        "(Program ~ [(ExpressionStatement (AssignmentExpression == (ObjectPattern \
         [(AssignmentProperty + - (Identifier =a) (AssignmentPattern (Identifier =c) (Literal \
         =number =1 ~)))]) (Identifier =b)))])",
        "/0/0/0/0 Shorthand",
    ),
    (
        "(Program ~ [(ImportDeclaration [(ImportSpecifier + (Identifier =b) (Identifier =a))] \
         (Literal =string =m ~))])",
        "/0/0 Shorthand",
    ),
    (
        "(Program ~ [(ExportNamedDeclaration _ [(ExportSpecifier + (Identifier =a) (Identifier \
         =b))] _)])",
        "/0/1 Shorthand",
    ),
    (
        "(Program ~ [(VariableDeclaration =var [(VariableDeclarator (ObjectPattern \
         [(AssignmentProperty + - (Identifier =a) (ObjectPattern []))]) (Identifier =b))])])",
        "/0/0/0/0 Shorthand",
    ),
];
