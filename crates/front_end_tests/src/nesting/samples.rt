//! Statements and declarations with the nesting of each of their tokens.

use crate::nesting::Statement;

pub static STATEMENTS: [Statement; 39] = [
    Statement {
        tokens: ";",
        nestings: &[2],
    },
    Statement {
        tokens: "{ ; { } }",
        nestings: &[2, 3, 3, 3, 2],
    },
    Statement {
        tokens: "a + b ;",
        nestings: &[3, 3, 4, 2],
    },
    Statement {
        tokens: "int a ; { }",
        nestings: &[1, 1, 1, 2, 2],
    },
    Statement {
        tokens: "int * * private * a , * * b ;",
        nestings: &[1, 1, 2, 3, 3, 1, 1, 1, 2, 1, 1],
    },
    Statement {
        tokens: "struct s ( * a ) ( int * * , char ) , b ;",
        nestings: &[1, 1, 1, 1, 1, 1, 1, 2, 2, 3, 2, 2, 1, 1, 1, 1],
    },
    Statement {
        tokens: "int ( * a ) ( int ( * ) ( void * ) , long ) ;",
        nestings: &[1, 1, 1, 1, 1, 1, 2, 2, 2, 2, 2, 3, 3, 2, 2, 2, 1, 1],
    },
    Statement {
        tokens: "int a = b + c , d = - e , * f = g ;",
        nestings: &[1, 1, 1, 2, 2, 3, 1, 1, 1, 3, 3, 1, 1, 1, 1, 2, 1],
    },
    Statement {
        tokens: "if ( a + b ) c ; else d ;",
        nestings: &[2, 2, 3, 3, 4, 2, 4, 3, 2, 4, 3],
    },
    Statement {
        tokens: "if ( a ) if ( b ) ; else c ; d ;",
        nestings: &[2, 2, 3, 2, 3, 3, 4, 3, 4, 3, 5, 4, 3, 2],
    },
    Statement {
        tokens: "if ( a ) { b ; } else if ( c ) ; else d ;",
        nestings: &[2, 2, 3, 2, 3, 5, 4, 3, 2, 3, 3, 4, 3, 4, 3, 5, 4],
    },
    Statement {
        tokens: "while ( a ) { b ; }",
        nestings: &[2, 2, 3, 2, 3, 5, 4, 3],
    },
    Statement {
        tokens: "do a ; while ( b + c ) ;",
        nestings: &[2, 4, 3, 2, 2, 3, 3, 4, 2, 2],
    },
    Statement {
        tokens: "for ( a + b ; c ; d = e ) f ;",
        nestings: &[2, 2, 3, 3, 4, 2, 3, 2, 3, 3, 4, 2, 4, 3],
    },
    Statement {
        tokens: "for ( ; ; ) { break ; continue ; }",
        nestings: &[2, 2, 2, 2, 2, 3, 4, 4, 4, 4, 3],
    },
    Statement {
        tokens: "return ;",
        nestings: &[2, 2],
    },
    Statement {
        tokens: "return a + b ;",
        nestings: &[2, 3, 3, 4, 2],
    },
    Statement {
        tokens: "a = b = c + d ;",
        nestings: &[3, 3, 4, 4, 5, 5, 6, 2],
    },
    Statement {
        tokens: "a ? b : c ? d : e ;",
        nestings: &[3, 3, 4, 3, 4, 4, 5, 4, 5, 2],
    },
    Statement {
        tokens: "a ? b ? c : d : e + f ;",
        nestings: &[3, 3, 4, 4, 5, 4, 5, 3, 4, 4, 5, 2],
    },
    Statement {
        tokens: "a + b ? c = d : e ;",
        nestings: &[3, 3, 4, 4, 5, 5, 6, 4, 5, 2],
    },
    Statement {
        tokens: "a + b * c << d == e && f ;",
        nestings: &[3, 3, 4, 4, 5, 5, 6, 6, 7, 7, 8, 2],
    },
    Statement {
        tokens: "a || b ^ c | d & e ;",
        nestings: &[3, 3, 4, 4, 5, 5, 6, 6, 7, 2],
    },
    Statement {
        tokens: "a - ( b - c ) - d ;",
        nestings: &[3, 3, 4, 5, 5, 6, 5, 5, 6, 2],
    },
    Statement {
        tokens: "( ( a + b ) ) * c ;",
        nestings: &[3, 4, 5, 5, 6, 5, 4, 4, 5, 2],
    },
    Statement {
        tokens: "- ~ a + ! b ;",
        nestings: &[4, 5, 5, 3, 5, 5, 2],
    },
    Statement {
        tokens: "* & a . b ;",
        nestings: &[4, 5, 5, 5, 5, 2],
    },
    Statement {
        tokens: "( int ) a ;",
        nestings: &[4, 4, 4, 4, 2],
    },
    Statement {
        tokens: "( int ) ( char * * ) a + b ;",
        nestings: &[4, 4, 4, 5, 5, 5, 6, 5, 5, 3, 4, 2],
    },
    Statement {
        tokens: "( int ( * ) ( int * ) ) a ;",
        nestings: &[4, 4, 4, 4, 4, 4, 5, 5, 4, 4, 4, 2],
    },
    Statement {
        tokens: "a + ( int ) b + c ;",
        nestings: &[3, 3, 5, 5, 5, 5, 4, 5, 2],
    },
    Statement {
        tokens: "sizeof ( int * * ) + a ;",
        nestings: &[3, 3, 3, 3, 4, 3, 3, 4, 2],
    },
    Statement {
        tokens: "- sizeof ( int ) ;",
        nestings: &[4, 4, 4, 4, 4, 2],
    },
    Statement {
        tokens: "a [ b + c ] [ d ] . e -> f ;",
        nestings: &[3, 3, 4, 4, 5, 4, 5, 6, 5, 6, 6, 7, 7, 2],
    },
    Statement {
        tokens: "f ( a , b + c ) ( d ) ;",
        nestings: &[3, 3, 4, 3, 4, 4, 5, 4, 5, 6, 5, 2],
    },
    Statement {
        tokens: "f ( a = b , - c ) + d ;",
        nestings: &[3, 3, 4, 4, 5, 3, 5, 5, 3, 4, 5, 2],
    },
    Statement {
        tokens: "( a + b ) . c = d [ e ] ;",
        nestings: &[3, 4, 4, 5, 4, 4, 4, 5, 6, 6, 7, 6, 2],
    },
    Statement {
        tokens: "* a -> b = & c . d + e ;",
        nestings: &[4, 4, 4, 4, 4, 6, 6, 6, 6, 6, 7, 2],
    },
    Statement {
        tokens: "f ( ) ( ) + a ;",
        nestings: &[3, 3, 3, 4, 4, 5, 6, 2],
    },
];
